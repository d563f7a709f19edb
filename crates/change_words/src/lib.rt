//! Definitions of what a change of policy takes away from the switches of a recording, and of the text that says it.
#![tactic(auto)]

ghost use Rattle.std.specs.Prelude.{◌≡◌, List};
ghost use Rattle.flow_book.specs.declared.booked.Booked.{Booked as BookedPair};
ghost use Rattle.flow_book.specs.Books.{BookCall, book};
ghost use Rattle.flow_book.specs.Order.{IsBookOf};
ghost use Rattle.change_words.specs.BookOrder.{in_book_order};

/// What is booked after some calls, put in order, is what a book gives after them.
pub fn book_is_put_in_order()
    ensures { (calls : List BookCall) (pairs : List BookedPair) → IsBookOf calls pairs → in_book_order (book calls) ≡ pairs }
{}
