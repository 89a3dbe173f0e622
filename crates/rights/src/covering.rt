ghost use Rattle.std.specs.Prelude.{◌≡◌, ◌<◌, true, is_some, IfSome, None};
ghost use Rattle.rights.specs.Covers.{CoversAt, covered, uncovered};

use crate::row::Row;
use crate::row_question::RowQuestion;

/// Some row that covers the item, or none exactly if none does. Which of several it is, is open.
pub fn covering_row(rows: &[Row], asked: RowQuestion, item: u64) -> Option<usize>
    ensures found_if_any { is_some result ≡ covered rows.now asked item }
    ensures item_within { is_some result ≡ true → item < 64 }
    ensures covers_item { IfSome result (CoversAt rows.now asked item) }
{
    // A loop with the index, left at a row that covers: so it reads as the question is asked.
    for (k, row) in rows.iter().enumerate() {
        if row.covers(asked, item) {
            return Some(k);
        }
    }
    None
}

/// The first of two items that no row covers; none if the user is entitled to both.
pub fn first_uncovered(rows: &[Row], asked: RowQuestion, a: u64, b: u64) -> Option<u64>
    ensures value { result ≡ uncovered rows.now asked a b }
    ensures items_within { result ≡ None → (a < 64) × (b < 64) }
{
    if covering_row(rows, asked, a).is_none() {
        return Some(a);
    }
    if covering_row(rows, asked, b).is_none() {
        return Some(b);
    }
    None
}
