//! The keys that a table may have.

ghost use Rattle.std.specs.Prelude.{◌≡◌, option_map};
ghost use Rattle.toml.specs.View.{table_view};
ghost use Rattle.policy_text.specs.Reading.{is_known_key, is_link_key, is_network_key, least_text, unknown_keys};

use toml::Table;

/// A kind of table, by the keys that it may have.
#[derive(Clone, Copy)]
pub enum Keys {
    /// The whole text, of a version; from version 2 on it may have `port`.
    Top(u32),
    Slice,
    Rule,
    Port,
}

fn is_link_key(key: &str) -> bool
    ensures { result ≡ is_link_key key.now }
{
    key == "in_port"
        || key == "dl_src"
        || key == "dl_dst"
        || key == "dl_vlan"
        || key == "dl_vlan_pcp"
        || key == "dl_type"
}

fn is_network_key(key: &str) -> bool
    ensures { result ≡ is_network_key key.now }
{
    key == "nw_tos"
        || key == "nw_proto"
        || key == "nw_src"
        || key == "nw_dst"
        || key == "tp_src"
        || key == "tp_dst"
}

fn is_known(keys: Keys, key: &str) -> bool
    ensures { result ≡ is_known_key keys key.now }
{
    match keys {
        Keys::Top(version) => {
            key == "version" || key == "slice" || key == "rule" || (version >= 2 && key == "port")
        }
        Keys::Slice => {
            key == "name"
                || key == "controller"
                || key == "rate"
                || key == "burst"
                || key == "quota"
        }
        Keys::Rule => {
            key == "switch"
                || key == "priority"
                || key == "write"
                || key == "read"
                || is_link_key(key)
                || is_network_key(key)
        }
        Keys::Port => key == "slice" || key == "switch" || key == "shown" || key == "physical",
    }
}

/// The least key of a table, by its bytes, that such a table may not have.
pub fn least_unknown(keys: Keys, table: &Table) -> Option<&str>
    ensures { option_map (λ key. key.now) result ≡ least_text (unknown_keys keys (table_view table.now)) }
{
    for (key, _value) in table.iter() {
        if !is_known(keys, key.as_str()) {
            return Some(key.as_str());
        }
    }
    None
}
