//! Laws of what a seat has seen. Each function's contract is the law; its body does nothing.

ghost use Rattle.std.specs.Prelude.{List, [], ◌∷◌, ◌++◌, ◌≡◌};
ghost use Rattle.std.specs.declared.option.Option.{Option};
ghost use Rattle.turn_desk.specs.declared.view.Member.{Member};
ghost use Rattle.turn_desk.specs.Histories.{Called, GoesOn, IsLegalList, first_in_view, longer, seat_number, seen_of};
ghost use Rattle.turn_desk.specs.Calls.{Call, Made};

use crate::object::Object;

/// The calls that a seat made go together: none leave what it knows, a turn is one, and of two stretches the
/// later calls follow the earlier. So a list that was legal stays legal over any number of turns.
pub fn calls_of_a_seat_go_together<O: Object>()
    ensures none { (v : Option (Member O O.Op O.Reply)) → Made O.acts v [] v }
    ensures one { (v w : Option (Member O O.Op O.Reply)) (op : O.Op) (reply : O.Reply) → Called O.acts v op reply w → Made O.acts v (record { op = op; reply = reply } ∷ []) w }
    ensures more { (u v w : Option (Member O O.Op O.Reply)) (before after : List (Call O.Op O.Reply)) → Made O.acts u before v → Made O.acts v after w → Made O.acts u (before ++ after) w }
{}

/// The reply of a turn is one that the object allows to what was asked.
pub fn replies_are_allowed<O: Object>()
    ensures { (v w : Option (Member O O.Op O.Reply)) (op : O.Op) (reply : O.Reply) → Called O.acts v op reply w → (old : O) × (new : O) × O.acts old op reply new }
{}

/// Where two seats' lists are legal from one object on, so is the longer of them, which both have seen after
/// they met.
pub fn longer_list_is_legal<O: Object>()
    ensures { (opening : O) (u v w : Option (Member O O.Op O.Reply)) → IsLegalList O.acts opening u → IsLegalList O.acts opening v → first_in_view w ≡ first_in_view u → seen_of w ≡ longer (seen_of u) (seen_of v) → IsLegalList O.acts opening w }
{}

/// A meeting is no call of a seat: it made the same calls as before, where the list that it has seen then is
/// legal.
pub fn meetings_are_no_calls<O: Object>()
    ensures { (opening : O) (v w : Option (Member O O.Op O.Reply)) → IsLegalList O.acts opening v → IsLegalList O.acts opening w → seat_number w ≡ seat_number v → GoesOn (seat_number v) (seen_of w) (seen_of v) → Made O.acts v [] w }
{}
