//! Reading a whole text.

ghost use Rattle.std.specs.Prelude.{◌≢◌, IfErr, option_map, unwrap_or};
ghost use Rattle.toml.specs.Data.{no_items};
ghost use Rattle.toml.specs.View.{items_view, table_view};
ghost use Rattle.flowspace.specs.Loading.{load_ports_of};
ghost use Rattle.policy_text.specs.Documents.{ArePlain, document_of, loaded, parts_in, parts_of, policy_of, policy_up_to, top};
ghost use Rattle.policy_text.specs.Ports.{swaps_from};
ghost use Rattle.policy_text.specs.Reading.{GivesAsText};
ghost use Rattle.policy_text.specs.Rules.{rules_from};
ghost use Rattle.policy_text.specs.Views.{parts_view, section};

use crate::fault::{Part, ReadFault};
use crate::known_keys::Keys;
use crate::names::Names;
use crate::ports::swaps;
use crate::rules::rules;
use crate::section::Section;
use crate::slices::slices;
use crate::values::Numbers;
use flowspace::{Policy, PolicyFault, Rule, Slice, Swap};
use std::alloc::Global;
use toml::{Table, Value};

/// The highest version of a text that [`read`] accepts.
pub const ACCEPTED: u32 = 2;

/// The slices, the rules and the swaps of a text.
#[derive(Drop)]
struct Parts {
    slices: Vec<Slice>,
    rules: Vec<Rule>,
    swaps: Vec<Swap>,
}

fn rules_under<'a>(
    alloc: Global,
    slices: &'a [Slice],
    tables: Option<&'a [Value]>,
) -> Result<Vec<Rule>, ReadFault>
    ensures { GivesAsText (λ v. v.items) result (rules_from slices.now 0 (unwrap_or (option_map (λ v. items_view v.now) tables.entry) no_items)) }
{
    match tables {
        Some(tables) => rules(alloc, &Names::of(alloc, slices)?, tables),
        None => Ok(Vec::new(alloc)),
    }
}

fn swaps_under<'a>(
    alloc: Global,
    slices: &'a [Slice],
    tables: Option<&'a [Value]>,
) -> Result<Vec<Swap>, ReadFault>
    ensures { GivesAsText (λ v. v.items) result (swaps_from slices.now 0 (unwrap_or (option_map (λ v. items_view v.now) tables.entry) no_items)) }
{
    match tables {
        Some(tables) => swaps(alloc, &Names::of(alloc, slices)?, tables),
        None => Ok(Vec::new(alloc)),
    }
}

#[tactic(auto, unfolding(crate::specs::Documents::parts_in))]
fn parts_in(highest: u32, table: &Section<'_>) -> Result<Parts, ReadFault>
    ensures { GivesAsText parts_view result (parts_in highest (section table.now)) }
{
    let version = table.required_number(Numbers::Between(1, highest), "version")?;
    table.known_keys(Keys::Top(version))?;
    let slice_tables = table.required_tables("slice")?;
    let rule_tables = table.tables("rule")?;
    let port_tables = table.tables("port")?;
    let slices = slices(table.alloc, slice_tables)?;
    let rules = rules_under(table.alloc, &slices, rule_tables)?;
    let swaps = swaps_under(table.alloc, &slices, port_tables)?;
    Ok(Parts {
        slices,
        rules,
        swaps,
    })
}

fn parts_of(alloc: Global, highest: u32, table: &Table) -> Result<Parts, ReadFault>
    ensures exact { GivesAsText parts_view result (parts_in highest (top (table_view table.now))) }
    ensures refused { IfErr result (λ fault. fault ≢ ReadFault.Refused PolicyFault.Memory) }
{
    let table = Section {
        alloc,
        part: Part::Top,
        index: 0,
        table,
    };
    parts_in(highest, &table)
}

fn parts_said(alloc: Global, highest: u32, bytes: &[u8]) -> Result<Parts, ReadFault>
    ensures exact { GivesAsText parts_view result (parts_of highest (document_of bytes.now)) }
    ensures refused { IfErr result (λ fault. fault ≢ ReadFault.Refused PolicyFault.Memory) }
{
    match toml::table_from_slice(alloc, bytes) {
        Ok(table) => parts_of(alloc, highest, &table),
        Err(error) => {
            if error.is_memory() {
                Err(ReadFault::Memory)
            } else {
                Err(ReadFault::NotToml)
            }
        }
    }
}

fn loaded(alloc: Global, parts: Parts) -> Result<Policy, ReadFault>
    requires { ArePlain (parts_view parts) }
    ensures exact { GivesAsText (λ p. p) result (loaded (load_ports_of parts.slices.items parts.rules.items parts.swaps.items)) }
    ensures refused { IfErr result (λ fault. fault ≢ ReadFault.Refused PolicyFault.Memory) }
{
    match Policy::load_ports(alloc, parts.slices, parts.rules, parts.swaps) {
        Ok(policy) => Ok(policy),
        Err(PolicyFault::Memory) => Err(ReadFault::Memory),
        Err(fault) => Err(ReadFault::Refused(fault)),
    }
}

/// The policy that a text of a version up to the highest says: its slices, whose places are their slots,
/// its rules, and in version 2 its swaps of port numbers. The first fault is answered of those that
/// follow in this order.
///
/// 1. The text isn't TOML in UTF-8.
/// 2. `version` is missing, or isn't 1 to the highest.
/// 3. The whole has an unknown key; the least by its bytes is named. In version 1 `port` is one.
/// 4. `slice` is missing or isn't an array of one or more tables; `rule` isn't an array of tables;
///    `port` isn't one.
/// 5. Along the slices: an unknown key, or a field that is missing or out of its form or range.
/// 6. Along the rules: the same; a name that is no slice; a reader named twice; a field of the match
///    without what it needs.
/// 7. Along the port tables: an unknown key, or a field that is missing or out of its form or range; a
///    name that is no slice.
/// 8. The faults of [`Policy::load_ports`].
///
/// A name has 1 to 32 letters a to z, digits, `_` and `-`, a controller 1 to 255 bytes. `rate` and
/// `burst` are 1 to 1,000,000 (1000 where missing), and `quota` is at most 4096 (1024 where missing).
/// `switch` is 16 hex digits, `dl_src` and `dl_dst` are six pairs of hex digits with `:` between
/// them, all in lower case; `nw_src` and `nw_dst` are `a.b.c.d` or `a.b.c.d/n`. `shown` and `physical`
/// are at most 65,280.
pub fn read_up_to(alloc: Global, highest: u32, bytes: &[u8]) -> Result<Policy, ReadFault>
    ensures exact { GivesAsText (λ p. p) result (policy_up_to highest (document_of bytes.now)) }
    ensures refused { IfErr result (λ fault. fault ≢ ReadFault.Refused PolicyFault.Memory) }
{
    let parts = parts_said(alloc, highest, bytes)?;
    loaded(alloc, parts)
}

/// The policy that a text of a version up to [`ACCEPTED`] says, or its first fault, as [`read_up_to`] has
/// it.
pub fn read(alloc: Global, bytes: &[u8]) -> Result<Policy, ReadFault>
    ensures exact { GivesAsText (λ p. p) result (policy_of (document_of bytes.now)) }
    ensures refused { IfErr result (λ fault. fault ≢ ReadFault.Refused PolicyFault.Memory) }
{
    read_up_to(alloc, ACCEPTED, bytes)
}
