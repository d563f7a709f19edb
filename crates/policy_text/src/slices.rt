//! The slices that a text says.

ghost use Rattle.toml.specs.View.{items_view, view};
ghost use Rattle.policy_text.specs.Reading.{GivesAsText};
ghost use Rattle.policy_text.specs.Slices.{slice_of_table, slice_of, slices_from};
ghost use Rattle.policy_text.specs.Views.{section};

use crate::fault::{Part, ReadFault};
use crate::known_keys::Keys;
use crate::section::Section;
use crate::values::{Numbers, Texts};
use flowspace::{Slice, Text, limits};
use std::alloc::Global;
use toml::Value;

/// Messages a second, messages at once, and flow entries on a switch of a slice that doesn't say them.
pub const RATE: u32 = 1000;

pub const BURST: u32 = 1000;

pub const QUOTA: u32 = 1024;

#[tactic(auto, unfolding(crate::specs::Slices::slice_of_table))]
fn slice_in(table: &Section<'_>) -> Result<Slice, ReadFault>
    ensures { GivesAsText (λ s. s) result (slice_of_table (section table.now)) }
{
    table.known_keys(Keys::Slice)?;
    let name = table.required_text(Texts::Name, "name")?;
    let controller = table.required_text(Texts::Controller, "controller")?;
    let rate = table.number(Numbers::Between(1, limits::RATE), "rate")?;
    let burst = table.number(Numbers::Between(1, limits::RATE), "burst")?;
    let quota = table.number(Numbers::UpTo(limits::QUOTA), "quota")?;
    Ok(Slice {
        name: Text::of(table.alloc, name)?,
        controller: Text::of(table.alloc, controller)?,
        rate: rate.unwrap_or(RATE),
        burst: burst.unwrap_or(BURST),
        quota: quota.unwrap_or(QUOTA),
    })
}

fn slice_of(alloc: Global, index: u64, value: &Value) -> Result<Slice, ReadFault>
    ensures { GivesAsText (λ s. s) result (slice_of index (view value.now)) }
{
    slice_in(&Section::of(alloc, "slice", Part::Slice, index, value)?)
}

/// The slices of the items.
pub fn slices(alloc: Global, values: &[Value]) -> Result<Vec<Slice>, ReadFault>
    ensures { GivesAsText (λ v. v.items) result (slices_from 0 (items_view values.now)) }
{
    let mut slices = Vec::new(alloc);
    for (index, value) in values.iter().enumerate() {
        slices.push(slice_of(alloc, index as u64, value)?)?;
    }
    Ok(slices)
}
