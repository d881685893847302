//! Derivations and proofs that are checked, over the formula of merging that keeps x <= y.

use crate::formulas::formula_of;
use crate::making::wrong_row;
use lucy_cert::{Certificate, Proof, ProofStep, Why, read};
use lucy_checker::{Checker, Verdict, check, step_fault};
use lucy_clauses::Formula;
use lucy_cuts::{CutError, derive};
use std::alloc::Global;

// The variables are 0 and 1 (x and y of the first state), 2 and 3 (of the second), 4 and 5 (of the merge).
const RANGES: &str = "0..10 0..10 0..10 0..10 0..10 0..10";

// The last clause says that the merge has x > y, so that there is no model.
const CLAUSES: &str = "-1*1 1*0 <= 0
-1*3 1*2 <= 0
-1*4 1*0 <= 0
-1*4 1*2 <= 0
-1*0 1*4 <= 0, -1*2 1*4 <= 0
-1*5 1*1 <= 0
-1*5 1*3 <= 0
-1*1 1*5 <= 0, -1*3 1*5 <= 0
-1*4 1*5 <= -1";

// A clause and the lines of its derivation, `;` between two; what `derive` answers.
const DERIVED: &str =
    "1*0 -1*4 <= -1, -1*0 1*1 <= -1, -1*1 1*5 <= -1, 1*4 -1*5 <= 0|+ 1 n0 1 n1 1 n2 1 n3|yes
1*0 -1*4 <= -1, -1*0 1*1 <= -1, -1*1 1*5 <= -1, 1*4 -1*5 <= 0|+ 2 n0 1 n1 1 n2 1 n3|no conflict 1
1*0 -1*4 <= -1, -1*0 1*1 <= -1, -1*1 1*5 <= -1, 1*4 -1*5 <= 0|+ 1 n0 1 n1 1 n2 1 n4|unknown 0
1*0 <= 10|+ 1 n0 1 h0|yes
1*0 <= 9|+ 1 n0 1 h0|no conflict 1
-1*0 <= 0|+ 1 n0 1 l0|yes
1*0 <= 10|+ 1 n0 1 h6|unknown 0
1*0 <= 10|+ 1 d0|unknown 0
1*0 <= 10|+ 85070591730234615865843651857942052864 n0|too wide 0
1*0 <= 10|/ 1 n0|no conflict 1
1*0 <= 10|/ 2 n0|no conflict 0
1*0 <= 10|/ 1 d0|unknown 0
1*0 1*1 <= 0, -1*0 1*1 <= -1, -1*1 <= -1|+ 1 n0 1 n1;/ 2 d0;+ 1 d1 1 n2|yes
1*0 1*1 <= 0, -1*0 1*1 <= -1, -1*1 <= -1|+ 1 n0 1 n1;/ 2 d0|no conflict 2
1*0 1*1 <= 0, -1*0 1*1 <= -1, -1*1 <= -1|+ 1 n0 1 n1;/ 2 d0;+ 1 d2 1 n2|unknown 2";

// Lines of which `;` stands between two.
fn add_lines(text: &mut String, lines: &str) -> Option<()> {
    for line in lines.split(';') {
        if !line.is_empty() {
            text.push_str(line).ok()?;
            text.push_str("\n").ok()?;
        }
    }
    Some(())
}

fn certificate_of(alloc: Global, text: &str) -> Option<Certificate> {
    read(alloc, text.as_bytes()).ok()
}

fn first_proof(certificate: Certificate) -> Option<Proof> {
    let mut parts = certificate.parts;
    let (_, proof) = parts.pop()?;
    Some(proof)
}

fn is_refusal(error: CutError, want: &str) -> Option<bool> {
    let (word, line) = want.rsplit_once(' ')?;
    let line = line.parse::<u32>().ok()?;
    Some(match word {
        "unknown" => error == CutError::Unknown(line),
        "too wide" => error == CutError::TooWide(line),
        "no conflict" => error == CutError::NoConflict(line),
        _ => false,
    })
}

fn is_derived_as(alloc: Global, step: &ProofStep, want: &str) -> Option<bool> {
    let formula = formula_of(alloc, RANGES, CLAUSES)?;
    let ProofStep::Lemma { clause, lines } = step else {
        return None;
    };
    if lines.len() >= 1 << 32 {
        return None;
    }
    match derive(alloc, clause, formula.ranges.as_slice(), lines.as_slice()) {
        Ok(()) => Some(want == "yes"),
        Err(error) => is_refusal(error, want),
    }
}

fn is_derived(alloc: Global, row: &str) -> Option<bool> {
    let (rest, want) = row.rsplit_once('|')?;
    let (clause, lines) = rest.split_once('|')?;
    let mut text = format!(in alloc; "lucy certificate 1\npart cover\nlemma {clause}\n").ok()?;
    add_lines(&mut text, lines)?;
    text.push_str("qed\nend\n").ok()?;
    let proof = first_proof(certificate_of(alloc, text.as_str())?)?;
    is_derived_as(alloc, proof.steps.as_slice().first()?, want)
}

// The version, the first multiplier, and the last steps, of which `;` stands between two; the verdict.
const CHECKED: &str = "1|1|rup by 0 5 8 9 1 6 10 4|refuted
1|2|rup by 0 5 8 9 1 6 10 4|0 no conflict
1|1||2 no empty
1|1|rup by 0 5 8 9 1 6 10 11|2 unknown
1|1|rup by 0 5 8 9 1 6 10 12|2 unknown
1|1|rup by 0 5 8 9 1 6 10 4 4|2 no conflict
1|1|rup by 0 5 8 9 1 6 10|2 no conflict
1|1|rup by 4|2 no conflict
1|1|rup by|2 no conflict
1|1|rup 1*6 <= 0 by 0|2 unknown
1|1|rup by 0 5 8 9 1 6 10 4;rup by 11|refuted
2 live 3|1|rup by 0 5 8 9 1 6 10 4|refuted
2 live 2|1|rup by 0 5 8 9 1 6 10 4|2 too many
2 live 2|1|drop 9;rup by 0 5 8 9 1 6 10 4|3 unknown
2 live 3|1|drop 9;rup by 0 5 8 9 1 6 10 4|3 unknown
2 live 3|1|rup by 0 5 8 9 1 6 10 4;drop 9 10 11|refuted
2 live 3|1|rup by 0 5 8 9 1 6 10 4;drop 9;drop 9|4 unknown
2 live 3|1|rup by 0 5 8 9 1 6 10 4;drop 8|3 unknown
2 live 3|1|rup by 0 5 8 9 1 6 10 4;drop 12|3 unknown
2 live 1|1|rup by 0 5 8 9 1 6 10 4|1 too many";

fn why_of(word: &str) -> Option<Why> {
    match word {
        "unknown" => Some(Why::Unknown),
        "too wide" => Some(Why::TooWide),
        "no conflict" => Some(Why::NoConflict),
        "no empty" => Some(Why::NoEmpty),
        "too many" => Some(Why::TooMany),
        _ => None,
    }
}

fn verdict_of(want: &str) -> Option<Verdict> {
    if want == "refuted" {
        return Some(Verdict::Refuted);
    }
    let (step, word) = want.split_once(' ')?;
    let step = step.parse::<u64>().ok()?;
    let why = why_of(word)?;
    Some(Verdict::Rejected { step, why })
}

// The certificate of a row: two lemmas, then its last steps.
fn text_of(alloc: Global, version: &str, first: &str, rest: &str) -> Option<String> {
    let mut text = format!(in alloc;
        "lucy certificate {version}\npart closure 0\nlemma 1*0 -1*4 <= -1, -1*0 1*1 <= -1, -1*1 1*5 <= -1, 1*4 -1*5 <= 0\n+ {first} n0 1 n1 1 n2 1 n3\nqed\nlemma 1*2 -1*4 <= -1, -1*2 1*3 <= -1, -1*3 1*5 <= -1, 1*4 -1*5 <= 0\n+ 1 n0 1 n1 1 n2 1 n3\nqed\n"
    ).ok()?;
    add_lines(&mut text, rest)?;
    text.push_str("end\n").ok()?;
    Some(text)
}

fn is_checked(alloc: Global, row: &str) -> Option<bool> {
    let (rest, want) = row.rsplit_once('|')?;
    let (version, rest) = rest.split_once('|')?;
    let (first, rest) = rest.split_once('|')?;
    let text = text_of(alloc, version, first, rest)?;
    let certificate = certificate_of(alloc, text.as_str())?;
    let live = certificate.live;
    let proof = first_proof(certificate)?;
    let formula = formula_of(alloc, RANGES, CLAUSES)?;
    let verdict = check(alloc, &formula, &proof, live).ok()?;
    Some(verdict == verdict_of(want)? && is_stepped(alloc, formula, &proof, live, verdict)?)
}

// Whether a checker that is given the steps one by one comes to the same verdict.
fn is_stepped(
    alloc: Global,
    formula: Formula,
    proof: &Proof,
    live: Option<u64>,
    verdict: Verdict,
) -> Option<bool> {
    let mut checker = Checker::new(alloc, formula, live);
    for step in proof.steps.as_slice() {
        checker = checker.step(alloc, step).ok()?;
    }
    Some(checker.verdict() == verdict)
}

// How many clauses a checker holds behind each step, where clauses are dropped.
fn held(alloc: Global) -> Option<[usize; 5]> {
    let text = text_of(
        alloc,
        "2 live 3",
        "1",
        "rup by 0 5 8 9 1 6 10 4;drop 9 11;drop 9",
    )?;
    let proof = first_proof(certificate_of(alloc, text.as_str())?)?;
    let mut checker = Checker::new(alloc, formula_of(alloc, RANGES, CLAUSES)?, Some(3));
    let mut counts = [0; 5];
    for (i, step) in proof.steps.as_slice().iter().enumerate() {
        checker = checker.step(alloc, step).ok()?;
        *counts.get_mut(i)? = checker.held().len();
    }
    Some(counts)
}

// Why the first and the last of three steps are not justified behind none.
fn faults_behind(alloc: Global) -> Option<[Option<Why>; 2]> {
    let text = text_of(alloc, "1", "1", "rup by 0 5 8 9 1 6 10 4")?;
    let proof = first_proof(certificate_of(alloc, text.as_str())?)?;
    let formula = formula_of(alloc, RANGES, CLAUSES)?;
    let [first, _, last] = proof.steps.as_slice() else {
        return None;
    };
    let lemma = step_fault(alloc, &formula, &[], first).ok()?;
    let propagated = step_fault(alloc, &formula, &[], last).ok()?;
    Some([lemma, propagated])
}

#[test]
fn derivations(rt: HostRuntime) {
    assert_eq!(rt; wrong_row(rt.alloc(), DERIVED, is_derived), None);
}

#[test]
fn proofs(rt: HostRuntime) {
    assert_eq!(rt; wrong_row(rt.alloc(), CHECKED, is_checked), None);
}

#[test]
fn held_clauses(rt: HostRuntime) {
    assert_eq!(rt; held(rt.alloc()), Some([1, 2, 3, 1, 0]));
}

#[test]
fn steps_behind(rt: HostRuntime) {
    assert_eq!(rt; faults_behind(rt.alloc()), Some([None, Some(Why::Unknown)]));
}
