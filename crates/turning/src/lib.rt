// The picture's two forms, turned into each other: bytes for the panel and for whoever keeps a picture, rows for the calls that work on it.
#![tactic(auto)]

ghost use Rattle.std.specs.Prelude.{◌≡◌, length};
ghost use Rattle.rules.specs.Refusal.{number};
ghost use Rattle.rules.specs.Rows.{rows_of, bytes_of};
ghost use Rattle.turning.specs.Turn.{fits, turn_refusal, rows_after, bytes_after};

use rules::{Machine, Refusal};

fn fill(picture: &[u8; Machine::PICTURE], rows: &mut [u64; Machine::ROWS])
    ensures { rows.new ≡ rows_of picture.now }
{
    for y in 0..Machine::ROWS {
        rows[y] = picture::row_at(picture, 8 * y);
    }
}

fn lay(rows: &[u64; Machine::ROWS], picture: &mut [u8; Machine::PICTURE])
    ensures { picture.new ≡ bytes_of rows.now }
{
    picture::lay_rows(picture, 0, rows, 0, Machine::ROWS);
}

// The bytes as rows.
pub fn to_rows(picture: &[u8], rows: &mut [u64]) -> Result<(), Refusal>
    ensures result_value { number result ≡ turn_refusal picture.now rows.old }
    ensures rows_after { rows.new ≡ rows_after picture.now rows.old }
{
    let Some(picture) = picture.as_array() else {
        return Err(Refusal::BufferLength);
    };
    let Some(rows) = rows.as_mut_array() else {
        return Err(Refusal::BufferLength);
    };
    fill(picture, rows);
    Ok(())
}

// The rows as bytes.
pub fn to_bytes(rows: &[u64], picture: &mut [u8]) -> Result<(), Refusal>
    ensures result_value { number result ≡ turn_refusal picture.old rows.now }
    ensures picture_after { picture.new ≡ bytes_after rows.now picture.old }
{
    let Some(rows) = rows.as_array() else {
        return Err(Refusal::BufferLength);
    };
    let Some(picture) = picture.as_mut_array() else {
        return Err(Refusal::BufferLength);
    };
    lay(rows, picture);
    Ok(())
}
