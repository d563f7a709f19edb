//! The swaps that a text's port tables say.

ghost use Rattle.toml.specs.View.{items_view, view};
ghost use Rattle.policy_text.specs.Ports.{port_text_in, swap_from, swap_in, swap_of, swaps_from};
ghost use Rattle.policy_text.specs.Reading.{GivesAsText};
ghost use Rattle.policy_text.specs.Views.{port_text_view, section};

use crate::fault::{Part, ReadFault};
use crate::known_keys::Keys;
use crate::names::{Names, port_slot};
use crate::section::Section;
use crate::values::{Numbers, Numerals, Texts};
use flowspace::Swap;
use of10_port::protocol::MAX;
use std::alloc::Global;
use toml::Value;

/// What a port table says, its slice by name.
#[derive(Drop)]
struct PortText<'a> {
    slice: &'a str,
    switch: Option<u64>,
    shown: u16,
    physical: u16,
}

#[tactic(auto, unfolding(crate::specs::Ports::port_text_in))]
fn port_text_in<'a>(table: &Section<'a>) -> Result<PortText<'a>, ReadFault>
    ensures { GivesAsText port_text_view result (port_text_in (section table.now)) }
{
    table.known_keys(Keys::Port)?;
    let slice = table.required_text(Texts::Any, "slice")?;
    let switch = table.numeral(Numerals::Datapath, "switch")?;
    let shown = table.required_number16(Numbers::UpTo(u32::from(MAX)), "shown")?;
    let physical = table.required_number16(Numbers::UpTo(u32::from(MAX)), "physical")?;
    Ok(PortText {
        slice,
        switch,
        shown,
        physical,
    })
}

#[tactic(auto, unfolding(crate::specs::Ports::swap_from))]
fn swap_from<'a>(names: &Names<'a>, index: u64, text: &PortText<'a>) -> Result<Swap, ReadFault>
    ensures { GivesAsText (λ w. w) result (swap_from names.now index (port_text_view text.now)) }
{
    let slice = port_slot(names, index, text.slice)?;
    Ok(Swap {
        slice,
        switch: text.switch,
        shown: text.shown,
        physical: text.physical,
    })
}

fn swap_in<'a>(names: &Names<'a>, table: &Section<'a>) -> Result<Swap, ReadFault>
    ensures { GivesAsText (λ w. w) result (swap_in names.now (section table.now)) }
{
    let text = port_text_in(table)?;
    swap_from(names, table.index, &text)
}

fn swap_of<'a>(
    alloc: Global,
    names: &Names<'a>,
    index: u64,
    value: &'a Value,
) -> Result<Swap, ReadFault>
    ensures { GivesAsText (λ w. w) result (swap_of names.now index (view value.now)) }
{
    swap_in(
        names,
        &Section::of(alloc, "port", Part::Port, index, value)?,
    )
}

/// The swaps of the items, which name these slices.
pub fn swaps<'a>(
    alloc: Global,
    names: &Names<'a>,
    values: &'a [Value],
) -> Result<Vec<Swap>, ReadFault>
    ensures { GivesAsText (λ v. v.items) result (swaps_from names.now 0 (items_view values.now)) }
{
    let mut swaps = Vec::new(alloc);
    for (index, value) in values.iter().enumerate() {
        swaps.push(swap_of(alloc, names, index as u64, value)?)?;
    }
    Ok(swaps)
}
