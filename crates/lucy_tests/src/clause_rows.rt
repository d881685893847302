use crate::formulas::{atom_of, formula_of, is_model, parts_of, plain_of, spelled_atom};
use crate::making::{wrong_row, yes_or_no};
use lucy_clauses::{Atom, Plain, are_small};
use std::alloc::Global;

// That merging two states keeps x <= y. The variables are 0 and 1 (x and y of the first state), 2 and 3 (of the second), 4 and
// 5 (of the merge).
const RANGES: &str = "0..10 0..10 0..10 0..10 0..10 0..10";

// The last clause says that the merge has x > y.
const CLAUSES: &str = "-1*1 1*0 <= 0
-1*3 1*2 <= 0
-1*4 1*0 <= 0
-1*4 1*2 <= 0
-1*0 1*4 <= 0, -1*2 1*4 <= 0
-1*5 1*1 <= 0
-1*5 1*3 <= 0
-1*1 1*5 <= 0, -1*3 1*5 <= 0
-1*4 1*5 <= -1";

// Numbers of the six variables; whether they model the clauses but the last, or all of them.
const MODELS: &str = "merged|yes 0 1 2 3 2 3
merged|yes 4 4 0 9 4 9
merged|yes 10 10 10 10 10 10
merged|no 1 0 2 3 2 3
merged|no 0 1 3 2 3 2
merged|no 0 1 2 3 3 3
merged|no 0 1 2 3 1 3
merged|no 0 1 2 3 2 4
merged|no 0 1 2 3 2 2
merged|no 0 1 2 11 2 11
merged|no -1 1 2 3 2 3
broken|no 0 1 2 3 2 3
broken|no 4 4 0 9 4 9
broken|no 0 1 2 3 4 3";

fn clauses_of(word: &str) -> Option<&'static str> {
    match word {
        "merged" => Some(CLAUSES.rsplit_once('\n')?.0),
        "broken" => Some(CLAUSES),
        _ => None,
    }
}

fn is_modelled(alloc: Global, row: &str) -> Option<bool> {
    let (word, row) = row.split_once('|')?;
    let formula = formula_of(alloc, RANGES, clauses_of(word)?)?;
    is_model(alloc, &formula, row)
}

// Whether an atom is spelled so.
fn is_spelled(alloc: Global, atom: &Atom, want: &str) -> Option<bool> {
    let text = spelled_atom(alloc, atom).ok()?;
    Some(text.as_str() == want)
}

// An atom of the proof that x <= y is kept; its complement.
const COMPLEMENTS: &str = "1*0 -1*4 <= -1|-1*0 1*4 <= 0
-1*0 1*1 <= -1|1*0 -1*1 <= 0
-1*1 1*5 <= -1|1*1 -1*5 <= 0
1*4 -1*5 <= 0|-1*4 1*5 <= -1";

// Whether the complement of an atom is what it should be and another atom, and its complement the atom again.
fn is_turned(alloc: Global, atom: &mut Atom, want: &str) -> Option<bool> {
    let before = atom.copied(alloc).ok()?;
    atom.complement();
    let is_another = !atom.is_same(&before);
    let is_right = is_spelled(alloc, atom, want)?;
    atom.complement();
    Some(is_right && is_another && atom.is_same(&before))
}

fn is_complement(alloc: Global, row: &str) -> Option<bool> {
    let (text, want) = row.split_once('|')?;
    let mut atom = atom_of(alloc, text)?;
    is_turned(alloc, &mut atom, want)
}

// An inequality, and what is left of it: the parts in order and the bound, or that it always or never holds. In the last three rows
// the parts are those of the four inequalities that the proof adds, which give 0 <= -1; with another bound they hold always.
const NORMAL_FORMS: &str = "2*0 4*1 <= 5|1*0 2*1 <= 2
4*1 2*0 <= 5|1*0 2*1 <= 2
-2*0 2*1 <= -1|-1*0 1*1 <= -1
3*3 -6*2 <= -4|-2*2 1*3 <= -2
3*3 -5*2 <= -4|-5*2 3*3 <= -4
1*7 1*5 <= 0|1*5 1*7 <= 0
-1*0 1*4 1*0 -1*1 1*1 -1*5 -1*4 1*5 <= -1|never
-1*0 1*4 1*0 -1*1 1*1 -1*5 -1*4 1*5 <= 0|always
-1*0 1*4 1*0 -1*1 1*1 -1*5 -1*4 1*5 <= 1|always";

fn is_normal(alloc: Global, row: &str) -> Option<bool> {
    let (text, want) = row.split_once('|')?;
    match plain_of(alloc, text)? {
        Plain::Always => Some(want == "always"),
        Plain::Never => Some(want == "never"),
        Plain::Atom(atom) => is_spelled(alloc, &atom, want),
    }
}

// The range of a single variable, an atom; whether the formula is narrow. The numbers are about 2^100.
const NARROWS: &str = "0..0|1*0 <= 1267650600228229401496703205375|yes
0..0|1*0 <= 1267650600228229401496703205376|no
-3..2|1*0 <= -1267650600228229401496703205373|yes
-3..2|1*0 <= -1267650600228229401496703205374|no
0..4|-1*0 <= 1267650600228229401496703205372|yes
0..4|-1*0 <= 1267650600228229401496703205373|no
-9223372036854775808..0|1*0 <= 1267650600219006029459848429568|yes
-9223372036854775808..0|1*0 <= 1267650600219006029459848429569|no
0..0|1*1 <= 0|no";

fn is_narrow(alloc: Global, row: &str) -> Option<bool> {
    let mut words = row.split('|');
    let formula = formula_of(alloc, words.next()?, words.next()?)?;
    Some(formula.narrow() == yes_or_no(words.next()?)?)
}

// Parts; whether the sizes of their factors are together at most 2^126.
const SMALL: &str = "85070591730234615865843651857942052864*0 0*0|yes
42535295865117307932921825928971026432*0 -42535295865117307932921825928971026432*0|yes
85070591730234615865843651857942052864*0 1*0|no
-1*0 -85070591730234615865843651857942052864*0|no
-170141183460469231731687303715884105728*0 -170141183460469231731687303715884105728*0|no";

fn is_small(alloc: Global, row: &str) -> Option<bool> {
    let (parts, want) = row.split_once('|')?;
    let parts = parts_of(alloc, parts)?;
    Some(are_small(&parts) == yes_or_no(want)?)
}

fn wrong_rows(alloc: Global) -> [Option<&'static str>; 5] {
    [
        wrong_row(alloc, MODELS, is_modelled),
        wrong_row(alloc, COMPLEMENTS, is_complement),
        wrong_row(alloc, NORMAL_FORMS, is_normal),
        wrong_row(alloc, NARROWS, is_narrow),
        wrong_row(alloc, SMALL, is_small),
    ]
}

#[test]
fn clauses_and_atoms(rt: HostRuntime) {
    assert_eq!(rt; wrong_rows(rt.alloc()), [None; 5]);
}
