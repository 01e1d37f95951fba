// Lent opcode maps and limits, and the maps of the rule years.

#![tactic(auto)]

ghost use Rattle.std.specs.Prelude.{true, false, ◌≡◌, ◌<◌, length, IfSome, IfNone, IfOk, unwrap_or};
ghost use Rattle.definition_rules.specs.Maps.{first_row, rows_of, good_rows, good_map, good_limit, judged};
ghost use Rattle.opcodes.specs.Classes.{rows_of as rows_by};
ghost use Rattle.walk.specs.Runs.{options_of};
ghost use Rattle.maps.specs.View.{rules_or_refusal, YearRows, map_size, map_put};

use opcodes::Classes;
use refusals::Refusal;
use stack::Limit;
use walk::{Options, Rules};

mod classic;

/// Whether 256 rows are good: those up to 60 are the built-in ones, and each later one is a class other than push.
fn good_rows(rows: &[u8]) -> bool
    requires { length rows.now ≡ 256 }
    ensures { result ≡ good_rows 0 rows.now }
{
    let (early, later) = rows.split_at(0x61);
    early == &opcodes::CLASSES[..0x61]
        && later
            .iter()
            .all(|&class| class <= 31 && class != opcodes::PUSH)
}

// Where the rows of a map begin.
fn first_row(map: &[u8]) -> usize
    ensures same { result ≡ first_row map.now }
    ensures low { result < 65536 }
{
    header::field(map, 2) as usize
}

/// The classes by the rows of a map; none where the map is bad.
fn classes(map: &[u8]) -> Option<Classes<'_>>
    ensures some { IfSome result (λ c. (good_map map.now ≡ true) × (rows_by c ≡ rows_of map.now)) }
    ensures none { IfNone result (good_map map.now ≡ false) }
{
    let first = first_row(map);
    if header::field(map, 0) != 256 || first < 4 || map.len() < first + 256 {
        return None;
    }
    let rows = &map[first..first + 256];
    if good_rows(rows) {
        Some(Classes::new(rows))
    } else {
        None
    }
}

/// A lent limit; none where it is bad.
// No `TryFrom`: which limits are good is said of maps, above the crate of `Limit`.
fn limit(items: u32) -> Option<Limit>
    ensures some { IfSome result (λ l. (good_limit items ≡ true) × (l.items ≡ items)) }
    ensures none { IfNone result (good_limit items ≡ false) }
{
    if (1..=244).contains(&items) {
        Some(Limit::new(items))
    } else {
        None
    }
}

/// What a walk goes by under a lent map and what is lent beside it. A bad map is told before a bad limit.
pub fn rules(map: &[u8], options: Options) -> Result<Rules<'_>, Refusal>
    ensures judged { rules_or_refusal result ≡ judged map.now (options_of options) Err Ok }
    ensures rows { IfOk result (λ r. rows_by r.classes ≡ rows_of map.now) }
{
    Ok(Rules {
        classes: classes(map).ok_or(Refusal::BadMap)?,
        limit: limit(options.limit).ok_or(Refusal::BadLimit)?,
        examined: options.examined,
    })
}

/// The rows of a year: 0 is the current one, which is built in, 1 the classic one. There is no other.
// A year is a number and no enum: C callers hand it over so, and any other has its answer too.
fn year_rows(year: u32) -> Option<&'static [u8; 256]>
    ensures some { IfSome result (λ rows. YearRows year rows.now) }
    ensures none { IfNone result (1 < year) }
{
    match year {
        0 => Some(&opcodes::CLASSES),
        1 => Some(&classic::CLASSIC),
        _ => None,
    }
}

/// The map of a year into lent bytes, 0 the built-in one, 1 the classic one: its size. None, and nothing is written, where there is
/// no such year or no room.
pub fn write_map(year: u32, map: &mut [u8]) -> Option<usize>
    ensures size { unwrap_or result 0 ≡ map_size year map.old }
    ensures whole { IfSome result (λ n. n ≡ 260) }
    ensures put { map.new ≡ map_put year map.old }
{
    let rows = year_rows(year)?;
    if map.len() < 260 {
        return None;
    }
    map[..4].copy_from_slice(b"\x00\x01\x04\x00");
    map[4..260].copy_from_slice(rows);
    Some(260)
}
