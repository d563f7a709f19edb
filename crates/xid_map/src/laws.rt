//! Laws of the definitions. Each function's contract is the law; its body does nothing.

ghost use Rattle.std.specs.Prelude.{ℕ, List, ◌≡◌, ◌≢◌, ◌<◌, ◌≤◌, ◌↔◌, IsTrue, AllPairs, Some, length};
ghost use Rattle.xid_map.specs.declared.asked.Issued.{Issued};
ghost use Rattle.xid_map.specs.Requests.{RequestCall, physical_of, remembered, found};
ghost use Rattle.xid_map.specs.Collections.{CollectionCall, is_among, collecting, since, kept_run, IsLongestRun};
ghost use Rattle.xid_map.specs.Laws.{IsFoundRequest, IsCollecting, IsStarted};

/// A request is found under a transaction id exactly where it was issued under that one and since then
/// nothing was forgotten and fewer than 4,096 others were issued; and it has the marks that were set since.
pub fn request_is_found_among_the_last()
    ensures { (slot physical : ℕ) (calls : List RequestCall) (request : Issued) → (found slot physical calls ≡ Some request) ↔ IsFoundRequest slot physical calls request }
{}

/// No two remembered requests have one transaction id.
pub fn transaction_ids_differ()
    ensures { (slot : ℕ) (calls : List RequestCall) → AllPairs (λ one other. physical_of slot one.number ≢ physical_of slot other.number) (remembered calls) }
{}

/// A request collects exactly where it was started while it didn't, and since then it wasn't finished, not
/// all were ended, and no other began by which it, the oldest of eight, was given up.
pub fn request_collects_until_a_call_ends_it()
    ensures { (number : ℕ) (calls : List CollectionCall) → IsTrue (is_among number (collecting calls)) ↔ IsCollecting number calls }
{}

/// A request that was started while it didn't collect does so at least until it is finished, all are ended,
/// or eight others are started.
pub fn request_collects_until_eight_others_start()
    ensures { (number : ℕ) (calls : List CollectionCall) → IsStarted number calls → IsTrue (is_among number (collecting calls)) }
{}

/// At most eight requests collect. Of two of them the one that stands in front began later, so that none
/// stands there twice.
pub fn at_most_eight_collect()
    ensures eight { (calls : List CollectionCall) → length (collecting calls) ≤ 8 }
    ensures order { (calls : List CollectionCall) → AllPairs (λ newer older. length (since newer calls) < length (since older calls)) (collecting calls) }
{}

/// What is kept of entries is the longest run from the oldest on that is within the limit.
pub fn kept_is_the_longest_run()
    ensures { (entries : List (List ℕ)) → IsLongestRun entries (kept_run entries) }
{}
