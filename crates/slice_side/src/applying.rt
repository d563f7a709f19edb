ghost use Rattle.std.specs.Prelude.{ℕ, ◌≡◌, ◌≢◌, ◌≤◌, ◌<◌, ◌^◌, not, filter, length, AllPairs, List, [], ◌∷◌, ◌++◌};
ghost use Rattle.xid_map.specs.Requests.{RequestCall, Forget, RequestsStand};
ghost use Rattle.xid_map.specs.Collections.{CollectionCall, EndAll, CollectionsStand};
ghost use Rattle.slice_words.specs.Items.{Settings, Sight, Item, Up, Down, Msg};
ghost use Rattle.slice_words.specs.Statistics.{begun};
ghost use Rattle.slice_words.specs.Standing.{SliceStands};
ghost use Rattle.slice_side.specs.declared.change.Change.TheVariants.{Modified, Inquired};
ghost use Rattle.slice_side.specs.Reactions.{without_physical, is_used_up, IsChange, IsSoundChange, HasRoom, with_item};
ghost use Rattle.slice_side.specs.Requesting.{IsRequested};

use crate::change::{Change, Modification};
use buffer_map::BufferMap;
use flow_book::{MISS_SEND_LEN, SliceState};
use stats_filter::type_sent;
use xid_map::{AskKind, Asked, Collections};

/// Forgets what belongs to one connection. The rate, the book and the numbering go on.
fn forget(state: &mut SliceState)
    ensures requests { (slot : ℕ) (calls : List RequestCall) → RequestsStand slot calls state.old.xids → RequestsStand slot (Forget ∷ calls) state.new.xids }
    ensures collections { (calls : List CollectionCall) → CollectionsStand calls state.old.collections → CollectionsStand (EndAll ∷ calls) state.new.collections }
    ensures miss_send_len { state.new.miss_send_len ≡ 128 }
    ensures given { state.new.buffers.given ≡ state.old.buffers.given }
    ensures held { state.new.buffers.held ≡ [] }
    ensures bucket { state.new.bucket ≡ state.old.bucket }
    ensures book { state.new.book ≡ state.old.book }
    ensures moment { state.new.moment ≡ state.old.moment }
{
    state.xids.forget_all();
    state.collections.forget_all();
    state.buffers.drop_all();
    state.miss_send_len = MISS_SEND_LEN;
}

/// The slice's controller connected.
pub fn come_up(state: &mut SliceState)
    ensures { (s : Settings) (sight : Sight) → SliceStands s sight state.old → SliceStands s (with_item Up sight) state.new }
{
    forget(state);
    state.up = true;
}

/// The connection of the slice's controller ended.
pub fn go_down(state: &mut SliceState)
    ensures { (s : Settings) (sight : Sight) → SliceStands s sight state.old → SliceStands s (with_item Down sight) state.new }
{
    forget(state);
    state.up = false;
}

/// Uses up the packet of the number, where there is one.
fn use_up(buffers: &mut BufferMap, used: Option<u32>)
    ensures given { buffers.new.given ≡ buffers.old.given }
    ensures held { buffers.new.held ≡ filter (λ packet. not (is_used_up used (without_physical packet))) buffers.old.held }
{
    match used {
        None => {}
        Some(number) => {
            buffers.use_up(number);
        }
    }
}

/// A request is remembered, has used its share of the rate, and uses up the packet of the number, where there
/// is one.
fn request(state: &mut SliceState, moment: u64, asked: Asked, used: Option<u32>)
    requires { state.old.xids.issued < 2 ^ 62 }
    ensures { IsRequested moment asked used state.old state.new }
{
    state.moment = moment.max(state.moment);
    state.bucket.ask(state.moment);
    state.xids.issue(asked);
    use_up(&mut state.buffers, used);
}

/// A flow-mod is requested, and booked.
fn modify(state: &mut SliceState, m: &Modification)
    requires distinct { AllPairs (λ a b. a ≢ b) m.now.pieces.items }
    requires few { length m.now.pieces.items ≤ 256 }
    requires room { HasRoom (Modified m.now) state.old }
    ensures { (s : Settings) (sight : Sight) (message : List ℕ) → SliceStands s sight state.old → IsChange s sight (Msg message m.now.moment) (Modified m.now) → SliceStands s (with_item (Msg message m.now.moment) sight) state.new }
{
    let (number, _) = state.xids.next();
    request(state, m.moment, m.asked, m.used);
    state
        .book
        .added(m.command, &m.pieces, m.priority, m.asks, number);
}

/// A request for statistics begins to collect.
fn begin(collections: &mut Collections, number: u64, kind: AskKind)
    ensures { (calls : List CollectionCall) → CollectionsStand calls collections.old → CollectionsStand (begun number kind ++ calls) collections.new }
{
    if type_sent(kind).is_some() {
        collections.start(number);
    }
}

/// A barrier, the queues of a port or statistics are requested.
fn inquire(state: &mut SliceState, moment: u64, asked: Asked)
    requires { state.old.xids.issued < 2 ^ 62 }
    ensures { (s : Settings) (sight : Sight) (item : Item) → SliceStands s sight state.old → IsChange s sight item (Inquired moment asked) → SliceStands s (with_item item sight) state.new }
{
    let (number, _) = state.xids.next();
    request(state, moment, asked, None);
    begin(&mut state.collections, number, asked.kind);
}

/// Makes the change in the slice's state. Takes no memory.
pub fn apply(state: &mut SliceState, change: Change)
    requires sound { IsSoundChange change }
    requires room { HasRoom change state.old }
    ensures { (s : Settings) (sight : Sight) (item : Item) → SliceStands s sight state.old → IsChange s sight item change → SliceStands s (with_item item sight) state.new }
{
    match change {
        Change::Heard { moment } => state.moment = moment.max(state.moment),
        Change::Set {
            moment,
            miss_send_len,
        } => {
            state.moment = moment.max(state.moment);
            state.miss_send_len = miss_send_len;
        }
        Change::Dismissed { moment } => {
            state.moment = moment.max(state.moment);
            forget(state);
            state.up = false;
        }
        Change::Rated { moment } => {
            state.moment = moment.max(state.moment);
            state.bucket.ask(state.moment);
        }
        Change::Modified(m) => modify(state, &m),
        Change::SentOut {
            moment,
            asked,
            used,
        } => request(state, moment, asked, used),
        Change::Inquired { moment, asked } => inquire(state, moment, asked),
    }
}
