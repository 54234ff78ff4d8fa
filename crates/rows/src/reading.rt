// A line read as a row.
ghost use Rattle.std.specs.Prelude.{◌≡◌, ◌<◌};
ghost use Rattle.rows.specs.Rows.{number_at, numbers_of, within_limits, row_of};

use crate::BadRow;
use csv_lines::fields::field;
use csv_lines::numbers::number;
use csv_lines::reading::count_of;
use parts::MAX_LIFE;
use shift::Row;

// The fields of a row.
const FIELDS: usize = 8;

// Field k as a number.
#[tactic(auto, unfolding(crate::specs::Rows::number_at))]
fn number_at(line: &[u8], k: usize) -> Result<u32, BadRow>
    requires { k < 8 }
    ensures { result ≡ number_at line.now k }
{
    number(field(line, k)).ok_or(BadRow::NotANumber(k + 1))
}

// The line's first eight fields as numbers.
fn numbers_of(line: &[u8]) -> Result<Row, BadRow>
    ensures { result ≡ numbers_of line.now }
{
    Ok(Row {
        console: number_at(line, 0)?,
        write: number_at(line, 1)?,
        begin: number_at(line, 2)?,
        end: number_at(line, 3)?,
        ts: number_at(line, 4)?,
        tag_console: number_at(line, 5)?,
        life: number_at(line, 6)?,
        value: number_at(line, 7)?,
    })
}

// The row, if its kind and its life are those of a record.
fn within_limits(row: Row) -> Result<Row, BadRow>
    ensures { result ≡ within_limits row }
{
    if row.write > 1 {
        return Err(BadRow::Kind);
    }
    if row.life > u32::from(MAX_LIFE) {
        return Err(BadRow::Life);
    }
    Ok(row)
}

// The row of a line of the newer edition.
#[tactic(auto, unfolding(crate::specs::Rows::row_of), using(crate::proofs::RowsLaws::count_few))]
pub fn row_of(line: &[u8]) -> Result<Row, BadRow>
    ensures { result ≡ row_of line.now }
{
    let fields = count_of(b',', line) + 1;
    if fields != FIELDS {
        return Err(BadRow::Fields(fields));
    }
    within_limits(numbers_of(line)?)
}
