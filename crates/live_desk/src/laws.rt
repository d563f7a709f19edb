//! What the turns of a desk are. Each function's contract is the law; its body does nothing.

ghost use Rattle.std.specs.Prelude.{List, []};
ghost use Rattle.std.specs.declared.option.Option.{Option};
ghost use Rattle.flowspace.specs.Policies.{PolicyView};
ghost use Rattle.desk_words.specs.Operations.{Operation};
ghost use Rattle.desk_words.specs.Operations.{IsLegal};
ghost use Rattle.proxy_core.specs.Desks.{DeskStands};
ghost use Rattle.turn_desk.specs.declared.view.Entry.{Entry};
ghost use Rattle.turn_desk.specs.declared.view.Member.{Member};
ghost use Rattle.turn_desk.specs.Histories.{IsLegalList, Runs, seen_of};
ghost use Rattle.live_desk.specs.declared.object.DeskObject.{DeskObject};
ghost use Rattle.live_desk.specs.declared.object.DeskOp.{DeskOp};
ghost use Rattle.live_desk.specs.declared.object.DeskReply.{DeskReply};
ghost use Rattle.live_desk.specs.Operates.{Operates};
ghost use Rattle.live_desk.specs.Turns.{AreOperations};

/// What a seat has seen of a desk that was new, as `Desk::new` gives it, is a legal history of a desk of its
/// policy.
pub fn legal_lists_are_legal_histories()
    ensures { (policy : PolicyView) (opening : DeskObject) (v : Option (Member DeskObject DeskOp DeskReply)) → DeskStands policy [] opening.desk → IsLegalList Operates opening v → (operations : List Operation) × AreOperations (seen_of v) operations × IsLegal policy operations }
{}

/// Where all turns are known, the desk stands for them.
pub fn desks_stand_for_their_turns()
    ensures { (policy : PolicyView) (opening last : DeskObject) (turns : List (Entry DeskOp DeskReply)) → DeskStands policy [] opening.desk → Runs Operates opening turns last → (operations : List Operation) × AreOperations turns operations × IsLegal policy operations × DeskStands policy operations last.desk }
{}
