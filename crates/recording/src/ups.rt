//! Who is up, kept as a table of the switches and their slices.

ghost use Rattle.std.specs.Prelude.{◌≡◌, ◌<◌, false, replicate, List, [], ◌∷◌};
ghost use Rattle.recording.specs.declared.item.Item.{Item};
ghost use Rattle.recording.specs.Recordings.{fits, fits_trace, is_switch_open, may_follow};
ghost use Rattle.recording.specs.Standing.{TableStands};

use crate::item::{Item, SLICE_DOWN, SLICE_UP, SWITCH_BYTES, SWITCH_DOWN, SWITCH_UP, SWITCHES};
use crate::layout::Layout;

/// How many slots a byte can name.
const SLOTS: usize = 256;

fn no_slices() -> [bool; SLOTS]
    ensures { result ≡ replicate 256 false }
{
    [false; SLOTS]
}

/// Which switches are up, and for each switch which slices.
#[derive(Drop)]
pub(crate) struct Ups {
    switches: [bool; SWITCHES],
    slices: [[bool; SLOTS]; SWITCHES],
}

impl Ups {
    /// Nobody is up.
    pub(crate) fn new() -> Ups
        ensures { TableStands result.switches result.slices [] }
    {
        Ups {
            switches: [false; SWITCHES],
            slices: [no_slices(); SWITCHES],
        }
    }

    /// Whether a switch is up.
    fn is_up(&self, switch: u8) -> bool
        requires { switch < 16 }
        ensures { (before : List Item) → TableStands self.now.switches self.now.slices before → result ≡ is_switch_open switch before }
    {
        self.switches[usize::from(switch)]
    }

    /// Whether the record may come next in a recording.
    fn fits(&self, item: &Item) -> bool
        requires { item.now.switch < 16 }
        ensures { (before : List Item) → TableStands self.now.switches self.now.slices before → result ≡ fits before item.now }
    {
        let switch = self.switches[usize::from(item.switch)];
        let slice = self.slices[usize::from(item.switch)][usize::from(item.slot)];
        match item.kind {
            SWITCH_UP => !switch,
            SWITCH_BYTES | SWITCH_DOWN => switch,
            SLICE_UP => switch && !slice,
            _ => slice,
        }
    }

    /// Whether the record may come next in a trace.
    fn fits_trace(&self, item: &Item) -> bool
        requires { item.now.switch < 16 }
        ensures { (before : List Item) → TableStands self.now.switches self.now.slices before → result ≡ fits_trace before item.now }
    {
        let is_up = self.is_up(item.switch);
        if item.kind == SWITCH_UP {
            !is_up
        } else {
            is_up
        }
    }

    /// Whether the record may come next in a file of the layout.
    pub(crate) fn admits(&self, layout: Layout, item: &Item) -> bool
        requires { item.now.switch < 16 }
        ensures { (before : List Item) → TableStands self.now.switches self.now.slices before → result ≡ may_follow layout before item.now }
    {
        match layout {
            Layout::Recording => self.fits(item),
            Layout::Trace => self.fits_trace(item),
        }
    }

    /// Takes note of a record.
    pub(crate) fn note(&mut self, item: &Item)
        requires { item.now.switch < 16 }
        ensures { (before : List Item) → TableStands self.old.switches self.old.slices before → TableStands self.new.switches self.new.slices (item.now ∷ before) }
    {
        let switch = usize::from(item.switch);
        let slot = usize::from(item.slot);
        match item.kind {
            SWITCH_UP => self.switches[switch] = true,
            SWITCH_DOWN => {
                self.switches[switch] = false;
                self.slices[switch] = no_slices();
            }
            SLICE_UP => self.slices[switch][slot] = true,
            SLICE_DOWN => self.slices[switch][slot] = false,
            _ => {}
        }
    }
}
