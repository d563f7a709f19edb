//! A table of the text, and what stands under its keys.

ghost use Rattle.std.specs.Prelude.{◌≡◌, ◌<◌, ◌≤◌, ◌^◌, ◌⊎◌, Some, None, IfOk, IfErr, IfSome, map, option_map};
ghost use Rattle.toml.specs.Data.{as_table, get_member};
ghost use Rattle.toml.specs.View.{items_view, view, table_view};
ghost use Rattle.policy_text.specs.Reading.{GivesAsText, addresses, greatest, known_keys, number, numeral, optional, key_place, required, some_tables, tables, text, text_list};
ghost use Rattle.policy_text.specs.Views.{section};

use crate::fault::{Part, Place, ReadFault};
use crate::known_keys::{Keys, least_unknown};
use crate::values::{
    Numbers, Numerals, Texts, addresses, number, numeral, some_tables, tables, text, text_list,
};
use flowspace::Text;
use of10_model::Prefix;
use std::alloc::{AllocError, Global};
use toml::{Table, Value};

/// A table of the text, and where it stands.
#[derive(Clone, Copy)]
pub struct Section<'a> {
    pub alloc: Global,
    pub part: Part,
    pub index: u64,
    pub table: &'a Table,
}

fn member_of<'a>(table: &'a Table, key: &str) -> Option<&'a Value>
    ensures { option_map (λ v. view v.now) result ≡ get_member key.now (table_view table.now) }
{
    table.get(key)
}

impl<'a> Section<'a> {
    /// The table that an item of the array under a key is.
    pub fn of(
        alloc: Global,
        key: &str,
        part: Part,
        index: u64,
        value: &'a Value,
    ) -> Result<Section<'a>, ReadFault>
        ensures table { IfOk result (λ s. as_table (view value.now) ≡ Some (section s).members) }
        ensures which { IfOk result (λ s. (s.part ≡ part) × (s.index ≡ index)) }
        ensures fault { IfErr result (λ fault. (as_table (view value.now) ≡ None) × ((fault ≡ ReadFault.Memory) ⊎ (fault ≡ ReadFault.BadValue (record { part = Part.Top; index = 0; key = key.now })))) }
    {
        match value.as_table() {
            Some(table) => Ok(Section {
                alloc,
                part,
                index,
                table,
            }),
            None => Err(ReadFault::BadValue(Place {
                part: Part::Top,
                index: 0,
                key: Text::of(alloc, key)?,
            })),
        }
    }

    fn place(&self, key: &str) -> Result<Place, AllocError>
        ensures { IfOk result (λ p. p ≡ key_place (section self.now) key.now) }
    {
        Ok(Place {
            part: self.part,
            index: self.index,
            key: Text::of(self.alloc, key)?,
        })
    }

    /// Refuses the least key that such a table may not have.
    pub fn known_keys(&self, keys: Keys) -> Result<(), ReadFault>
        ensures { GivesAsText (λ u. u) result (known_keys keys (section self.now)) }
    {
        match least_unknown(keys, self.table) {
            Some(key) => Err(ReadFault::UnknownKey(self.place(key)?)),
            None => Ok(()),
        }
    }

    /// What was read of the value under a key, which must be of its form where it is there.
    fn good<T>(&self, key: &str, read: Option<Option<T>>) -> Result<Option<T>, ReadFault>
        ensures value { IfOk result (λ o. option_map (λ x. Some x) o ≡ read) }
        ensures fault { IfErr result (λ fault. (read ≡ Some None) × ((fault ≡ ReadFault.Memory) ⊎ (fault ≡ ReadFault.BadValue (key_place (section self.now) key.now)))) }
    {
        match read {
            None => Ok(None),
            Some(None) => Err(ReadFault::BadValue(self.place(key)?)),
            Some(Some(x)) => Ok(Some(x)),
        }
    }

    /// What was read under a key that must be there.
    fn needed<T>(&self, key: &str, read: Option<T>) -> Result<T, ReadFault>
        ensures value { IfOk result (λ x. read ≡ Some x) }
        ensures fault { IfErr result (λ fault. (read ≡ None) × ((fault ≡ ReadFault.Memory) ⊎ (fault ≡ ReadFault.Missing (key_place (section self.now) key.now)))) }
    {
        match read {
            None => Err(ReadFault::Missing(self.place(key)?)),
            Some(x) => Ok(x),
        }
    }

    /// The number under a key that must be there.
    pub fn required_number(&self, numbers: Numbers, key: &str) -> Result<u32, ReadFault>
        ensures value { GivesAsText (λ n. n) result (required (number numbers) (section self.now) key.now) }
        ensures limit { IfOk result (λ n. n ≤ greatest numbers) }
    {
        let read = member_of(self.table, key).map(|value| number(numbers, value));
        self.needed(key, self.good(key, read)?)
    }

    /// The number under a key.
    pub fn number(&self, numbers: Numbers, key: &str) -> Result<Option<u32>, ReadFault>
        ensures value { GivesAsText (λ n. n) result (optional (number numbers) (section self.now) key.now) }
        ensures limit { IfOk result (λ o. IfSome o (λ n. n ≤ greatest numbers)) }
    {
        let read = member_of(self.table, key).map(|value| number(numbers, value));
        self.good(key, read)
    }

    /// The number of 16 bits under a key.
    pub fn number16(&self, numbers: Numbers, key: &str) -> Result<Option<u16>, ReadFault>
        requires { greatest numbers < 2 ^ 16 }
        ensures value { GivesAsText (λ n. n) result (optional (number numbers) (section self.now) key.now) }
    {
        match self.number(numbers, key)? {
            None => Ok(None),
            Some(n) => Ok(Some(n as u16)),
        }
    }

    /// The number of 16 bits under a key that must be there.
    pub fn required_number16(&self, numbers: Numbers, key: &str) -> Result<u16, ReadFault>
        requires { greatest numbers < 2 ^ 16 }
        ensures { GivesAsText (λ n. n) result (required (number numbers) (section self.now) key.now) }
    {
        Ok(self.required_number(numbers, key)? as u16)
    }

    /// The number of 8 bits under a key.
    pub fn number8(&self, numbers: Numbers, key: &str) -> Result<Option<u8>, ReadFault>
        requires { greatest numbers < 2 ^ 8 }
        ensures value { GivesAsText (λ n. n) result (optional (number numbers) (section self.now) key.now) }
    {
        match self.number(numbers, key)? {
            None => Ok(None),
            Some(n) => Ok(Some(n as u8)),
        }
    }

    /// The number that is written as a text under a key.
    pub fn numeral(&self, kind: Numerals, key: &str) -> Result<Option<u64>, ReadFault>
        ensures { GivesAsText (λ n. n) result (optional (numeral kind) (section self.now) key.now) }
    {
        let read = member_of(self.table, key).map(|value| numeral(kind, value));
        self.good(key, read)
    }

    /// The addresses under a key.
    pub fn addresses(&self, key: &str) -> Result<Option<Prefix>, ReadFault>
        ensures { GivesAsText (λ p. p) result (optional addresses (section self.now) key.now) }
    {
        let read = member_of(self.table, key).map(|value| addresses(value));
        self.good(key, read)
    }

    /// The text under a key that must be there.
    pub fn required_text(&self, texts: Texts, key: &str) -> Result<&'a str, ReadFault>
        ensures { GivesAsText (λ s. s.now) result (required (text texts) (section self.now) key.now) }
    {
        let read = member_of(self.table, key).map(|value| text(texts, value));
        self.needed(key, self.good(key, read)?)
    }

    /// The text under a key.
    pub fn text(&self, texts: Texts, key: &str) -> Result<Option<&'a str>, ReadFault>
        ensures { GivesAsText (option_map (λ s. s.now)) result (optional (text texts) (section self.now) key.now) }
    {
        let read = member_of(self.table, key).map(|value| text(texts, value));
        self.good(key, read)
    }

    /// The texts of the array under a key.
    pub fn text_list(&self, key: &str) -> Result<Option<Vec<&'a str>>, ReadFault>
        ensures { GivesAsText (option_map (λ v. map (λ s. s.now) v.items)) result (optional text_list (section self.now) key.now) }
    {
        match member_of(self.table, key) {
            None => Ok(None),
            Some(value) => self.good(key, Some(text_list(self.alloc, value)?)),
        }
    }

    /// The tables of the array under a key.
    pub fn tables(&self, key: &str) -> Result<Option<&'a [Value]>, ReadFault>
        ensures { GivesAsText (option_map (λ v. items_view v.now)) result (optional tables (section self.now) key.now) }
    {
        let read = member_of(self.table, key).map(|value| tables(value));
        self.good(key, read)
    }

    /// The tables, one or more, of the array under a key that must be there.
    pub fn required_tables(&self, key: &str) -> Result<&'a [Value], ReadFault>
        ensures { GivesAsText (λ v. items_view v.now) result (required some_tables (section self.now) key.now) }
    {
        let read = member_of(self.table, key).map(|value| some_tables(value));
        self.needed(key, self.good(key, read)?)
    }
}
