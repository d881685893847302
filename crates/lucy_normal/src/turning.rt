ghost use Rattle.std.specs.Prelude.{◌≡◌, ◌++◌, ◌<◌, ◌+◌, [], ◌∷◌, IfOk, OnErr, IsTrue, map, not, true, if◌then◌else◌, List};
ghost use Rattle.std.specs.List.{list_all};
ghost use Rattle.lucy_model.specs.Conditions.{is_condition};
ghost use Rattle.lucy_model.specs.Terms.{is_term};
ghost use Rattle.lucy_model.specs.declared.conditions.Op.{Op};
ghost use Rattle.lucy_normal.specs.Normals as normals;
ghost use Rattle.lucy_normal.specs.Normals.{normal_of, side};
ghost use Rattle.lucy_normal.specs.Joints as joints;
ghost use Rattle.lucy_normal.specs.Fronts.{Begins};
ghost use Rattle.lucy_normal.specs.Gathering as gathering;
ghost use Rattle.lucy_normal.specs.declared.normals.Normal.{Normal};
ghost use Rattle.lucy_normal.specs.Linear as linears;

use crate::comparing::compared;
use crate::flattening::{add, one_all};
use crate::fronts::shorten;
use crate::gathering::{Gathered, finish, joined, other, settled};
use crate::joints::Joint;
use crate::normals::Normal;
use crate::variables::Variables;
use lucy_clauses::{Atom, at_least, at_most};
use lucy_model::{Condition, Op, Term, opposite};
use sqlite_items::Items;
use std::alloc::{AllocError, Global};

// What holds everywhere where `positive`, and nowhere otherwise.
fn constant(alloc: Global, positive: bool) -> Normal
    ensures { result ≡ normals.constant positive }
{
    if positive {
        Normal::All(Items::new(alloc))
    } else {
        Normal::Any(Items::new(alloc))
    }
}

// That a leaf is at least 1 where `positive`, and that it is not otherwise.
fn flag(alloc: Global, at: Variables, leaf: u32, positive: bool) -> Result<Normal, AllocError>
    requires { leaf < at.leaves }
    ensures { IfOk result (λ n. n ≡ normals.flag at.first leaf positive) }
{
    let variable = at.first + leaf;
    let atom = if positive {
        at_least(alloc, variable, 1)?
    } else {
        at_most(alloc, variable, 0)?
    };
    Ok(Normal::Atom(atom))
}

// That a term stands in a relation to 0 where `positive`, and that it does not otherwise.
fn signed(
    alloc: Global,
    at: Variables,
    term: &Term,
    op: Op,
    positive: bool,
) -> Result<Normal, AllocError>
    requires { IsTrue (is_term at.leaves 0 term.now) }
    ensures { IfOk result (λ n. n ≡ normals.signed_comparison at.first term.now op positive) }
{
    let op = if positive { op } else { opposite(op) };
    let normal = compared(alloc, at, term, op)?;
    Ok(normal)
}

// What joins the sides of an implication.
fn implied_joint(positive: bool) -> Joint
    ensures { result ≡ joints.implied_joint positive }
{
    if positive { Joint::Any } else { Joint::All }
}

// Adds that a term stands in a relation to 0, or that it does not.
fn add_signed(
    alloc: Global,
    flat: &mut Items<Normal>,
    at: Variables,
    term: &Term,
    op: Op,
    positive: bool,
    joint: Joint,
) -> Result<(), AllocError>
    requires { IsTrue (is_term at.leaves 0 term.now) }
    ensures ok { IfOk result (λ _. flat.new ≡ flat.old ++ joints.within joint (normals.signed_comparison at.first term.now op positive)) }
    ensures err { OnErr result (flat.new ≡ flat.old) }
{
    let part = signed(alloc, at, term, op, positive)?;
    add(alloc, flat, part, joint)
}

// Adds that a leaf is at least 1, or that it is not.
fn add_flag(
    alloc: Global,
    flat: &mut Items<Normal>,
    at: Variables,
    leaf: u32,
    positive: bool,
    joint: Joint,
) -> Result<(), AllocError>
    requires { leaf < at.leaves }
    ensures ok { IfOk result (λ _. flat.new ≡ flat.old ++ joints.within joint (normals.flag at.first leaf positive)) }
    ensures err { OnErr result (flat.new ≡ flat.old) }
{
    let part = flag(alloc, at, leaf, positive)?;
    add(alloc, flat, part, joint)
}

/// The normal condition over the variables of a state that holds where the condition does, if `positive`, and where it
/// does not, otherwise.
pub fn normal_form(
    alloc: Global,
    condition: &Condition,
    at: Variables,
    positive: bool,
) -> Result<Normal, AllocError>
    requires { IsTrue (is_condition at.leaves 0 condition.now) }
    ensures { IfOk result (λ n. n ≡ normal_of at.first condition.now positive) }
{
    let mut flat = Items::new(alloc);
    add_form(alloc, condition, &mut flat, at, positive, Joint::All)?;
    Ok(one_all(flat))
}

/// Adds the same to the parts of an `All` or of an `Any`, as `add_all` and `add_any` do. On `Err` they are as they were.
pub fn add_normal_form(
    alloc: Global,
    flat: &mut Items<Normal>,
    condition: &Condition,
    at: Variables,
    positive: bool,
    joint: Joint,
) -> Result<(), AllocError>
    requires { IsTrue (is_condition at.leaves 0 condition.now) }
    ensures ok { IfOk result (λ _. flat.new ≡ flat.old ++ joints.within joint (normal_of at.first condition.now positive)) }
    ensures err { OnErr result (flat.new ≡ flat.old) }
{
    let length = flat.len();
    match add_form(alloc, condition, flat, at, positive, joint) {
        Ok(()) => Ok(()),
        Err(e) => {
            shorten(flat, length);
            Err(e)
        }
    }
}

// The same, but on `Err` some parts more may stand there.
#[cycle(turning)]
fn add_form(
    alloc: Global,
    condition: &Condition,
    flat: &mut Items<Normal>,
    at: Variables,
    positive: bool,
    joint: Joint,
) -> Result<(), AllocError>
    requires { IsTrue (is_condition at.leaves 0 condition.now) }
    ensures ok { IfOk result (λ _. flat.new ≡ flat.old ++ joints.within joint (normal_of at.first condition.now positive)) }
    ensures front { Begins flat.old flat.new }
{
    match condition {
        Condition::True => add(alloc, flat, constant(alloc, positive), joint),
        Condition::False => add(alloc, flat, constant(alloc, !positive), joint),
        Condition::Compare { term, op } => add_signed(alloc, flat, at, term, *op, positive, joint),
        Condition::Is(leaf) => add_flag(alloc, flat, at, *leaf, positive, joint),
        Condition::Not(part) => add_form(alloc, part.get(), flat, at, !positive, joint),
        Condition::And(parts) => {
            let parts = parts.as_slice();
            if positive {
                add_list(alloc, parts, flat, at, true, Joint::All, joint)
            } else {
                add_list(alloc, parts, flat, at, false, Joint::Any, joint)
            }
        }
        Condition::Or(parts) => {
            let parts = parts.as_slice();
            if positive {
                add_list(alloc, parts, flat, at, true, Joint::Any, joint)
            } else {
                add_list(alloc, parts, flat, at, false, Joint::All, joint)
            }
        }
        Condition::Implies(left, right) => {
            if implied_joint(positive) == joint {
                add_form(alloc, left.get(), flat, at, !positive, joint)?;
                return add_form(alloc, right.get(), flat, at, positive, joint);
            }
            let none = Gathered::Parts(Items::new(alloc));
            let one = gather(alloc, left.get(), flat, none, at, !positive, joint)?;
            let both = gather(alloc, right.get(), flat, one, at, positive, joint)?;
            finish(alloc, flat, both, joint)
        }
    }
}

// Adds what joins one side of each part.
#[cycle(turning)]
fn add_list(
    alloc: Global,
    parts: &[Condition],
    flat: &mut Items<Normal>,
    at: Variables,
    positive: bool,
    own: Joint,
    joint: Joint,
) -> Result<(), AllocError>
    requires { list_all (λ b. b) (map (is_condition at.leaves 0) parts.now) ≡ true }
    ensures ok { IfOk result (λ _. flat.new ≡ flat.old ++ joints.within joint (joints.joined own (side positive (map (normal_of at.first) parts.now)))) }
    ensures front { Begins flat.old flat.new }
{
    if own == joint {
        return add_sides(alloc, parts, flat, at, positive, joint);
    }
    let sides = gather_sides(alloc, parts, flat, at, positive, joint)?;
    finish(alloc, flat, sides, joint)
}

// Adds one side of each part.
#[cycle(turning)]
fn add_sides(
    alloc: Global,
    parts: &[Condition],
    flat: &mut Items<Normal>,
    at: Variables,
    positive: bool,
    joint: Joint,
) -> Result<(), AllocError>
    requires { list_all (λ b. b) (map (is_condition at.leaves 0) parts.now) ≡ true }
    ensures ok { IfOk result (λ _. flat.new ≡ flat.old ++ joints.flat joint (side positive (map (normal_of at.first) parts.now))) }
    ensures front { Begins flat.old flat.new }
{
    for part in parts {
        add_form(alloc, part, flat, at, positive, joint)?;
    }
    Ok(())
}

// Gathers one side of each part for the other joint.
#[cycle(turning)]
fn gather_sides(
    alloc: Global,
    parts: &[Condition],
    flat: &mut Items<Normal>,
    at: Variables,
    positive: bool,
    joint: Joint,
) -> Result<Gathered, AllocError>
    requires { list_all (λ b. b) (map (is_condition at.leaves 0) parts.now) ≡ true }
    ensures { gathering.Gave joint flat.old flat.new result (joints.flat (joints.other joint) (side positive (map (normal_of at.first) parts.now))) }
{
    let mut sides = Gathered::Parts(Items::new(alloc));
    for part in parts {
        sides = gather(alloc, part, flat, sides, at, positive, joint)?;
    }
    Ok(sides)
}

// Gathers a part more for the other joint. The parts of the first one stand at the end of the list around until there is a
// second: so where a list comes to one part alone, the parts of that one stand where they end up. (A leaf has two at most.)
#[cycle(turning)]
fn gather(
    alloc: Global,
    condition: &Condition,
    flat: &mut Items<Normal>,
    gathered: Gathered,
    at: Variables,
    positive: bool,
    joint: Joint,
) -> Result<Gathered, AllocError>
    requires { IsTrue (is_condition at.leaves 0 condition.now) }
    ensures { (old parts : List Normal) → gathering.Gathers joint old flat.old gathered parts → gathering.Gave joint old flat.new result (parts ++ joints.within (joints.other joint) (normal_of at.first condition.now positive)) }
{
    match gathered {
        Gathered::Parts(parts) => {
            let mut parts = parts;
            let is_leaf = matches!(
                condition,
                Condition::True | Condition::False | Condition::Compare { .. } | Condition::Is(_)
            );
            if parts.is_empty() && !is_leaf {
                let start = flat.len();
                add_form(alloc, condition, flat, at, positive, joint)?;
                return settled(alloc, flat, start, joint);
            }
            add_form(alloc, condition, &mut parts, at, positive, other(joint))?;
            Ok(Gathered::Parts(parts))
        }
        Gathered::Alone(start) => {
            let mut more = Items::new(alloc);
            add_form(alloc, condition, &mut more, at, positive, other(joint))?;
            joined(alloc, flat, start, more, joint)
        }
    }
}
