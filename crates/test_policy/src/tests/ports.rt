//! Port tables of texts: what they are read as, what is wrong with them and where, and how they are printed.

use super::given::{NAMES, SwapRow, expect_text, load_ports, made};
use policy_text::{ReadFault, print, read, read_up_to};
use std::alloc::{AllocError, Global};
use std::process::Abort;
use std::test::Fail;

const SLICES: &str =
    "slice = [{ name = 'alice', controller = 'c' }, { name = 'bob', controller = 'c' }]\n";

/// The swaps that a text up to a version says, or its fault; the slices stand behind the text.
fn ports_text(alloc: Global, highest: u32, text: &str) -> Result<String, AllocError> {
    let whole = [text, "\n", SLICES].concat(alloc)?;
    match read_up_to(alloc, highest, whole.as_bytes()) {
        Ok(policy) => format!(in alloc; "{:?}", policy.swaps()),
        Err(ReadFault::Memory) => Err(AllocError),
        Err(fault) => format!(in alloc; "{fault:?}"),
    }
}

/// What stands behind `version = 2`, and what is said of it.
const TEXTS: &[(&str, &str)] = &[
    ("", "[]"),
    ("port = []", "[]"),
    (
        "port = [{ slice = 'bob', switch = '00000000000000a1', shown = 65280, physical = 0 }]",
        "[Swap { slice: 1, switch: Some(161), shown: 65280, physical: 0 }]",
    ),
    (
        "port = [{ slice = 'alice', shown = 3, physical = 3 }, { slice = 'bob', shown = 3, physical = 4 }]",
        "[Swap { slice: 0, switch: None, shown: 3, physical: 3 }, Swap { slice: 1, switch: None, shown: 3, physical: 4 }]",
    ),
    // Another form, behind an unknown key and a `rule` of another form
    ("port = 1", "BadValue(port)"),
    ("port = {}", "BadValue(port)"),
    ("port = [{}, 1]", "BadValue(port)"),
    ("rule = 1\nport = 1", "BadValue(rule)"),
    ("port = 1\nzone = 1", "UnknownKey(zone)"),
    ("port = 1\nports = 1", "UnknownKey(ports)"),
    // An unknown key, and each field that is missing or bad, in order
    (
        "port = [{ zone = 1, in_port = 2 }]",
        "UnknownKey(port.0.in_port)",
    ),
    ("port = [{}]", "Missing(port.0.slice)"),
    ("port = [{ slice = 1 }]", "BadValue(port.0.slice)"),
    (
        "port = [{ slice = 'alice', switch = 1 }]",
        "BadValue(port.0.switch)",
    ),
    (
        "port = [{ slice = 'alice', switch = '00000000000000A1' }]",
        "BadValue(port.0.switch)",
    ),
    (
        "port = [{ slice = 'alice', physical = -1 }]",
        "Missing(port.0.shown)",
    ),
    (
        "port = [{ slice = 'alice', shown = 65281 }]",
        "BadValue(port.0.shown)",
    ),
    (
        "port = [{ slice = 'alice', shown = '9' }]",
        "BadValue(port.0.shown)",
    ),
    (
        "port = [{ slice = 'alice', shown = 9 }]",
        "Missing(port.0.physical)",
    ),
    (
        "port = [{ slice = 'alice', shown = 9, physical = 65534 }]",
        "BadValue(port.0.physical)",
    ),
    (
        "port = [{ slice = 'alice', shown = 9, physical = -1 }]",
        "BadValue(port.0.physical)",
    ),
    // The name of a slice comes behind the fields, and behind the rules
    (
        "port = [{ slice = 'carol', shown = 9, physical = 65281 }]",
        "BadValue(port.0.physical)",
    ),
    (
        "port = [{ slice = 'Not a name', shown = 9, physical = 2 }, {}]",
        "Refused(UnknownPortSlice(0))",
    ),
    (
        "port = [{ slice = 'bob', shown = 9, physical = 2 }, { slice = '', shown = 9, physical = 2 }]",
        "Refused(UnknownPortSlice(1))",
    ),
    (
        "rule = [{ priority = 1, write = 'carol' }]\nport = [{}]",
        "Refused(UnknownSlice(0))",
    ),
    (
        "port = [{ slice = 'bob', shown = 9, physical = 2 }, { shown = 9, x = 2 }]",
        "UnknownKey(port.1.x)",
    ),
    // Numbers that are named twice on a common switch
    (
        "port = [{ slice = 'alice', shown = 9, physical = 2 }, { slice = 'alice', shown = 2, physical = 5 }]",
        "Refused(PortTwice(1))",
    ),
    (
        "port = [{ slice = 'bob', switch = '00000000000000a1', shown = 9, physical = 2 }, \
{ slice = 'bob', switch = '00000000000000a2', shown = 9, physical = 2 }, { slice = 'bob', shown = 5, physical = 9 }]",
        "Refused(PortTwice(2))",
    ),
];

#[test]
fn port_tables_are_read_or_have_a_place(rt: HostRuntime) -> Result<(), Fail> {
    let alloc = rt.alloc();
    for (index, (text, wanted)) in TEXTS.iter().enumerate() {
        let whole = ["version = 2\n", text].concat(alloc)?;
        let came = ports_text(alloc, 2, whole.as_str())?;
        expect_text(&rt, index, came.as_str(), wanted);
    }
    Ok(())
}

/// A highest version, a text, and what is said of it.
const VERSIONS: &[(u32, &str, &str)] = &[
    (1, "version = 1", "[]"),
    (1, "version = 1\nport = []", "UnknownKey(port)"),
    (1, "version = 1\nport = 1\nzone = 1", "UnknownKey(port)"),
    (1, "version = 1\nport = 1\nname = 1", "UnknownKey(name)"),
    (1, "version = 2\nport = []", "BadValue(version)"),
    (2, "version = 1\nport = []", "UnknownKey(port)"),
    (2, "version = 1", "[]"),
    (2, "version = 3", "BadValue(version)"),
    (2, "version = 0", "BadValue(version)"),
    (2, "version = 2.0", "BadValue(version)"),
    (2, "port = 1", "Missing(version)"),
];

#[test]
fn version_one_has_no_port_tables(rt: HostRuntime) -> Result<(), Fail> {
    let alloc = rt.alloc();
    for (index, (highest, text, wanted)) in VERSIONS.iter().enumerate() {
        let came = ports_text(alloc, *highest, text)?;
        expect_text(&rt, index, came.as_str(), wanted);
    }
    Ok(())
}

/// A text of version 2 with so many swaps of alice, each of a number that stays.
fn text_of_swaps(alloc: Global, count: u32) -> Result<String, AllocError> {
    let mut text = String::from_str(alloc, "version = 2\nport = [")?;
    for number in 0..count {
        write!(
            text,
            "{{ slice = 'alice', shown = {number}, physical = {number} }},"
        )?;
    }
    text.push_str("]")?;
    Ok(text)
}

#[test]
fn swaps_are_at_most_1024(rt: HostRuntime) -> Result<(), Fail> {
    let alloc = rt.alloc();
    let text = text_of_swaps(alloc, 1025)?;
    let came = ports_text(alloc, 2, text.as_str())?;
    expect_text(&rt, 1025, came.as_str(), "Refused(TooMany(Swaps, 1025))");
    let text = text_of_swaps(alloc, 1024)?;
    let whole = [text.as_str(), "\n", SLICES].concat(alloc)?;
    let policy = read_up_to(alloc, 2, whole.as_bytes()).ok();
    let policy = policy.ok_or("1,024 swaps are a policy's")?;
    assert!(&rt; policy.swaps().len() == 1024, "all swaps are read");
    Ok(())
}

const PRINTED_SLICES: &str = "
[[slice]]
name = \"alice\"
controller = \"192.0.2.1:6633\"
burst = 2000
quota = 0

[[slice]]
name = \"bob\"
controller = \"192.0.2.1:6633\"
burst = 2000
quota = 0
";

/// Swaps, and what is printed for them: the version, and what stands behind the slices.
const PRINTED: &[(&[SwapRow], &str, &str)] = &[
    (&[], "version = 1\n", ""),
    (
        &[(1, Some(161), 65280, 0), (0, None, 3, 3)],
        "version = 2\n",
        "
[[port]]
slice = \"bob\"
switch = \"00000000000000a1\"
shown = 65280
physical = 0

[[port]]
slice = \"alice\"
shown = 3
physical = 3
",
    ),
];

#[test]
fn swaps_are_printed_behind_the_slices(rt: HostRuntime) -> Result<(), Fail> {
    let alloc = rt.alloc();
    for (index, (swaps, version, ports)) in PRINTED.iter().enumerate() {
        let policy = load_ports(alloc, NAMES, &made(alloc, &[])?, swaps)?;
        let bytes = print(alloc, &policy)?;
        let text = std::str::from_utf8(bytes.as_slice()).ok();
        let text = text.ok_or("a printed policy is a text")?;
        let wanted = [*version, PRINTED_SLICES, *ports].concat(alloc)?;
        expect_text(&rt, index, text, wanted.as_str());
    }
    Ok(())
}

#[test]
fn version_two_without_swaps_is_printed_as_version_one(rt: HostRuntime) -> Result<(), Fail> {
    let alloc = rt.alloc();
    let whole = ["version = 2\nport = []\n", SLICES].concat(alloc)?;
    let policy = read_up_to(alloc, 2, whole.as_bytes()).ok();
    let policy = policy.ok_or("the text is a policy")?;
    let bytes = print(alloc, &policy)?;
    let again = read(alloc, bytes.as_slice()).is_ok();
    assert!(&rt; again, "what is printed is of version 1");
    Ok(())
}
