use crate::asking::{Question, formula_of};
use crate::making::wrong_row;
use lucy_clauses::{Formula, Range};
use std::alloc::{AllocError, Global};

// ---- a slow program that tries all numbers within their ranges

// How many numbers a range has.
fn size_of(range: Range) -> Option<u64> {
    let size = range.hi.checked_sub(range.lo)?.checked_add(1)?;
    u64::try_from(size).ok()
}

// How many lists there are with a number of each range.
fn count_of(ranges: &[Range]) -> Option<u64> {
    let mut count = 1u64;
    for range in ranges {
        count = count.checked_mul(size_of(*range)?)?;
    }
    Some(count)
}

fn number_at(range: Range, place: u64) -> Option<i64> {
    let place = i64::try_from(place).ok()?;
    range.lo.checked_add(place)
}

// The list of this place, the first numbers changing last.
fn list_at(alloc: Global, ranges: &[Range], place: u64) -> Option<Vec<i64>> {
    let mut list = Vec::new(alloc);
    let mut count = count_of(ranges)?;
    let mut rest = place;
    for range in ranges {
        count = count.checked_div(size_of(*range)?)?;
        list.push(number_at(*range, rest.checked_div(count)?)?)
            .ok()?;
        rest = rest.checked_rem(count)?;
    }
    Some(list)
}

// The next numbers within their ranges, the last ones changing last, or the least ones again behind the greatest.
fn advance(numbers: &mut [i64], ranges: &[Range]) {
    for place in 0..numbers.len().min(ranges.len()) {
        if numbers[place] < ranges[place].hi {
            numbers[place] = numbers[place].saturating_add(1);
            return;
        }
        numbers[place] = ranges[place].lo;
    }
}

// Whether some of so many lists, which begin with as many numbers of this one, is a model.
fn is_begun(formula: &Formula, list: &mut [i64], length: usize, count: u64) -> Option<bool> {
    let ranges = formula.ranges.as_slice();
    if list.len() != ranges.len() || length > ranges.len() || !formula.narrow() {
        return None;
    }
    for _ in 0..count {
        if formula.holds_under(list) {
            return Some(true);
        }
        advance(&mut list[length..], &ranges[length..]);
    }
    Some(false)
}

// The numbers of a list, one behind the other.
fn add_list(text: &mut String, alloc: Global, list: &[i64]) -> Result<(), AllocError> {
    if !text.is_empty() {
        text.push_str(" ")?;
    }
    for number in list {
        let digits = number.to_string(alloc)?;
        text.push_str(&digits)?;
    }
    Ok(())
}

// The first so many numbers of all models, where so many lists begin with each.
fn fronts(alloc: Global, formula: &Formula, length: usize, count: u64) -> Option<String> {
    let ranges = formula.ranges.as_slice();
    let mut text = String::new(alloc);
    for front in 0..count_of(ranges.get(..length)?)? {
        let mut list = list_at(alloc, ranges, front.checked_mul(count)?)?;
        if is_begun(formula, &mut list, length, count)? {
            add_list(&mut text, alloc, list.get(..length)?).ok()?;
        }
    }
    Some(text)
}

// ---- the plans

// An object, an invariant, the condition of a segment and the point that it leaves out; that point; and, by plain arithmetic in bench/trial-pairs,
// the pairs of states of which the formulas of the segment's and of the invariant's closure have models, and the states of
// which that of the cover has one. These plans have few fresh variables.
const PLAIN: &str = "max x in 0..1; max y in 0..1;|x + y <= 1|true||0110 1001|0110 1001|
max x in 0..1; max y in 0..1;|x + y <= 1|true except (0, 1)|0 1|||01
max x in 0..1; max y in 0..1;|false|true||||
max x in 0..2; max y in 0..2;|x <= y|true||||
max x in 0..2; min y in 0..2;|x <= y|true||0011 0012 0022 0122 1100 1122 1200 2200 2201 2211|0011 0012 0022 0122 1100 1122 1200 2200 2201 2211|
max x in 0..2; max y in 0..2;|true|x != y||0110 0220 0221 1001 1220 1221 2002 2012 2102 2112||00 11 22";

// Conditions of two and three parts.
const JOINED: &str =
    "min x in 0..2; max y in 0..2;|x = y or x > y|2*x + 2*y >= 3 and x > 0 except (1, 1)|1 1||0021 0022 1022 2100 2200 2210|00 10 11
max x in 0..2; min y in 0..2;|true|x > 0 => x = y except (2, 2)|2 2|0011 1100||10 12 20 21 22
max x in 0..2; min y in 0..2;|2*x < 3*y|not x = y except (0, 2)|0 2|0112 1201|0122 1122 2201 2211|02 11 22
max x in 0..2; max y in 0..2;|true|x > y and x + y <= 1 or not x > y and x != y||0110 1001||00 11 20 21 22
max x in 0..2; max y in 0..2;|not x = y|2*x < 3*y or x + y <= 1 except (1, 0)|1 0||0220 0221 1220 1221 2002 2012 2102 2112|10 20 21
min x in 0..2; min y in 0..2;|x > 0 => x <= y|x + y <= 1 and x = y or not x + y <= 1 and x != y except (0, 0)|0 0|||00 01 11 22";

// A flag.
const FLAGS: &str =
    "orflag x; min y in 0..2;|not x or y >= 1|x => y = 1||0011 1100|0011 0012 1100 1200|12
orflag x; max y in 0..2;|true|not x and y >= 1 or x and y != 1 except (1, 2)|1 2|0110 0210 1001 1002||00 11 12";

fn plan_text(
    alloc: Global,
    object: &str,
    invariant: &str,
    segment: &str,
) -> Result<String, AllocError> {
    format!(in alloc;
        "lucy 1 object {{ {} }} start {{ }} invariant {}; segment main when {} do; end",
        object, invariant, segment
    )
}

// Whether the models of a question's formula begin so.
fn is_answered(
    alloc: Global,
    plan: &str,
    question: Question,
    length: usize,
    want: &str,
) -> Option<bool> {
    let formula = formula_of(alloc, plan, question)?;
    let behind = count_of(formula.ranges.as_slice().get(length..)?)?;
    let found = fronts(alloc, &formula, length, behind)?;
    Some(found.as_str() == want)
}

fn is_right(alloc: Global, row: &str) -> Option<bool> {
    let mut fields = row.split('|');
    let plan = plan_text(alloc, fields.next()?, fields.next()?, fields.next()?).ok()?;
    let point = fields.next()?;
    let segment = is_answered(alloc, &plan, Question::Segment, 4, fields.next()?)?;
    let whole = is_answered(alloc, &plan, Question::Whole(point), 4, fields.next()?)?;
    let cover = is_answered(alloc, &plan, Question::Cover, 2, fields.next()?)?;
    Some(segment && whole && cover)
}

#[test]
fn plain_plans_break_where_a_formula_has_a_model(rt: HostRuntime) {
    assert_eq!(rt; wrong_row(rt.alloc(), PLAIN, is_right), None);
}

#[test]
fn joined_plans_break_where_a_formula_has_a_model(rt: HostRuntime) {
    assert_eq!(rt; wrong_row(rt.alloc(), JOINED, is_right), None);
}

#[test]
fn plans_with_flags_break_where_a_formula_has_a_model(rt: HostRuntime) {
    assert_eq!(rt; wrong_row(rt.alloc(), FLAGS, is_right), None);
}
