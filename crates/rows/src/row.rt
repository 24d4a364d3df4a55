// A row of a page: where it starts, read from its words, live or not, made anew.
ghost use Rattle.std.specs.Prelude.{◌≡◌, ◌+◌, ◌≤◌, ◌<◌, ◌^◌, length};
ghost use Rattle.words.specs.Words.{birth_of, end_of};
ghost use Rattle.tree.specs.Row.{row_start, row_words, row_at, live_for};
ghost use Rattle.tree.specs.Edit.{born_at};
ghost use Rattle.tree.specs.Fresh.{new_row};
ghost use Rattle.tree.specs.RowSteps.{gained};

use tree::Row;
use words::Value;

// Where the row at a place starts.
pub fn row_start(place: usize) -> usize
    requires { row_start place < 2 ^ 64 }
    ensures { result ≡ row_start place }
{
    tree::PAGE_HEADER_WORDS + Row::WORDS * place
}

// The row at a place of the page.
pub fn row_at(page: &[u64], place: usize) -> Row
    requires { row_start place + row_words ≤ length page.now }
    ensures { result ≡ row_at page.now (row_start place) }
{
    let at = row_start(place);
    let keys = page[at];
    let life = page[at + 1];
    Row {
        low: words::low_key(keys),
        high: words::high_key(keys),
        child: words::child_page(keys),
        birth: words::birth_of(life),
        end: words::end_of(life),
        value: Value::read(page, at + Row::VALUE_START),
    }
}

// Whether a row with this word 1 is live at t.
pub fn is_live(life: u64, t: u32) -> bool
    ensures { result ≡ live_for (birth_of life) (end_of life) t }
{
    words::birth_of(life) <= t && t < words::end_of(life)
}

// A row born at `birth` and open.
pub fn new_row(birth: u32, low: u16, high: u16, child: u32, value: Value) -> Row
    ensures { result ≡ new_row birth low high child value }
{
    Row {
        low,
        high,
        child,
        birth,
        end: words::OPEN,
        value,
    }
}

// The row, born at t and open.
pub fn born_at(row: Row, t: u32) -> Row
    ensures { result ≡ born_at t row }
{
    new_row(t, row.low, row.high, row.child, row.value)
}

// The row with a point's value added.
pub fn gained_row(row: Row, value: Value) -> Row
    ensures { result ≡ gained value row }
{
    Row {
        value: row.value.plus(value),
        ..row
    }
}
