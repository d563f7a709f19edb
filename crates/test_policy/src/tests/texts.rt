//! Texts, and the policies that they are read as.

use super::given::{Row, SHELL, WEB, expect_text, made, told};
use flowspace::Policy;
use policy_text::read;
use samples::ANY;
use std::alloc::Global;
use std::process::Abort;
use std::test::Fail;

const SLICES: &str = "version = 1
[[slice]]
name = \"alice\"
controller = \"127.0.0.1:6633\"
[[slice]]
name = \"bob\"
controller = \"127.0.0.1:6634\"
";

const RULES: &str = "[[rule]]
priority = 100
write = \"alice\"
dl_type = 2048
nw_proto = 6
tp_dst = 80
[[rule]]
priority = 50
write = \"bob\"
dl_type = 2048
nw_proto = 6
tp_dst = 22
";

/// The policy of alice, bob and these rules.
fn policy_with(alloc: Global, rules: &str) -> Result<Policy, Fail> {
    let text = [SLICES, rules].concat(alloc)?;
    let policy = read(alloc, text.as_bytes()).ok();
    Ok(policy.ok_or("the text is a policy")?)
}

/// The text has these rules, and what is said of it is wanted.
fn expect_rules(
    rt: &impl Abort,
    alloc: Global,
    text: &str,
    rows: &[Row],
    wanted: &str,
) -> Result<(), Fail> {
    let policy = policy_with(alloc, text)?;
    let rules = made(alloc, rows)?;
    let came = told(alloc, &rules, policy.slices(), policy.rules())?;
    expect_text(rt, rows.len(), came.as_str(), wanted);
    Ok(())
}

#[test]
fn two_slices_and_two_rules(rt: HostRuntime) -> Result<(), Fail> {
    expect_rules(
        &rt,
        rt.alloc(),
        RULES,
        &[(None, 100, WEB, Some(0), 0), (None, 50, SHELL, Some(1), 0)],
        "alice 127.0.0.1:6633 1000 1000 1024, bob 127.0.0.1:6634 1000 1000 1024, \
rules Some(0) Some(1)",
    )?;
    expect_rules(
        &rt,
        rt.alloc(),
        "[[rule]]\npriority = 10\nread = ['bob']\n",
        &[(None, 10, ANY, None, 0b10)],
        "alice 127.0.0.1:6633 1000 1000 1024, bob 127.0.0.1:6634 1000 1000 1024, rules Some(0)",
    )
}

const EVERY_FIELD: &str = "[[rule]]\nswitch = '00000000000000af'\npriority = 7
read = ['bob', 'alice']\nin_port = 65534\ndl_src = '00:00:5e:00:53:01'
dl_dst = 'ff:00:00:00:00:02'\ndl_vlan = 5\ndl_vlan_pcp = 6\ndl_type = 2048
nw_tos = 252\nnw_proto = 1\nnw_src = '10.1.2.3/24'
nw_dst = '192.0.2.255'\ntp_src = 8\ntp_dst = 0\n";

/// The rule with every field: switch 0xaf, addresses 0x00005e005301 and 0xff0000000002, the network 10.1.2.0/24 and
/// the address 192.0.2.255, in decimal.
const EVERY_FIELD_READ: &str = "[Rule { switch: Some(175), priority: 7, pattern: Match { \
pattern: Pattern { in_port: Some(65534), dl_src: Some(1577079553), dl_dst: Some(280375465082882), \
dl_vlan: Some(5), dl_vlan_pcp: Some(6), dl_type: Some(2048), nw_tos: Some(252), nw_proto: Some(1), \
nw_src: Some(Prefix { bits: 24, value: 167838208 }), \
nw_dst: Some(Prefix { bits: 32, value: 3221226239 }), tp_src: Some(8), tp_dst: Some(0) } }, \
writer: None, readers: 3 }]";

#[test]
fn every_field(rt: HostRuntime) -> Result<(), Fail> {
    let policy = policy_with(rt.alloc(), EVERY_FIELD)?;
    let came = format!(in rt.alloc(); "{:?}", policy.rules())?;
    expect_text(&rt, 0, came.as_str(), EVERY_FIELD_READ);
    Ok(())
}
