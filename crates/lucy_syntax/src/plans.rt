//! Transactions, segments and the whole plan.

ghost use Rattle.std.specs.Prelude.{◌≡◌};
ghost use Rattle.lucy_syntax.specs.Input.{Reads};
ghost use Rattle.lucy_syntax.specs.Plans as spec;

use crate::conditions::cond;
use crate::cursor::Cursor;
use crate::error::{SyntaxError, refused};
use crate::listed::{Listed, many};
use crate::objects::{DEEPEST, object, start};
use crate::terms::{bounds, int, names, path, term};
use lucy_lexer::TokenKind;
use lucy_tree::{
    Assigned, Branch, Chain, Change, Depth, Except, Int, Invariant, Name, Object, Param, Point,
    Segment, Span, Start, Then, Tree, Txn,
};
use sqlite_items::Items;
use std::alloc::Global;

#[tactic(auto, unfolding(crate::specs::Plans::invariant))]
fn invariant(alloc: Global, cursor: &mut Cursor<'_>) -> Result<Invariant, SyntaxError>
    ensures { Reads (spec.invariant cursor.old) result cursor.new }
{
    let word = cursor.expect(TokenKind::Invariant)?;
    let cond = cond(alloc, cursor, DEEPEST)?;
    cursor
        .expect(TokenKind::Semicolon)
        .map(|semicolon| Invariant {
            word,
            cond,
            semicolon,
        })
}

#[tactic(auto, unfolding(crate::specs::Plans::param))]
fn param(alloc: Global, cursor: &mut Cursor<'_>) -> Result<Param, SyntaxError>
    ensures { Reads (spec.param cursor.old) result cursor.new }
{
    let name = cursor.name(alloc)?;
    let bounds = bounds(cursor)?;
    Ok(Param { name, bounds })
}

impl Listed for Then<Param> {
    ghost use Rattle.lucy_lexer.specs.declared.token.TokenKind.TheVariants as k;
    ghost use Rattle.lucy_syntax.specs.Input.{eat};
    ghost use Rattle.lucy_syntax.specs.Lists.{then_of};
    ghost use Rattle.lucy_syntax.specs.Plans.{param};

    type Mark = Span;

    type Item = Param;

    ghost begun = { eat k.Comma };

    ghost read = { param };

    ghost joined = { then_of };

    fn begun(cursor: &mut Cursor<'_>) -> Option<Span> {
        cursor.eat(TokenKind::Comma)
    }

    fn read(alloc: Global, cursor: &mut Cursor<'_>) -> Result<Param, SyntaxError> {
        param(alloc, cursor)
    }

    fn joined(mark: Span, item: Param) -> Then<Param> {
        Then { mark, item }
    }
}

#[tactic(auto, unfolding(crate::specs::Plans::more_params))]
fn more_params(alloc: Global, cursor: &mut Cursor<'_>) -> Result<Items<Then<Param>>, SyntaxError>
    ensures { Reads (spec.more_params cursor.old) result cursor.new }
{
    many(alloc, cursor)
}

#[tactic(auto, unfolding(crate::specs::Plans::params))]
fn params(alloc: Global, cursor: &mut Cursor<'_>) -> Result<Option<Chain<Param>>, SyntaxError>
    ensures { Reads (spec.params cursor.old) result cursor.new }
{
    match cursor.peek() {
        Some(TokenKind::Name) => {
            let first = param(alloc, cursor)?;
            let others = more_params(alloc, cursor)?;
            Ok(Some(Chain { first, others }))
        }
        _ => Ok(None),
    }
}

#[tactic(auto, unfolding(crate::specs::Plans::assigned))]
fn assigned(alloc: Global, cursor: &mut Cursor<'_>) -> Result<Assigned, SyntaxError>
    ensures { Reads (spec.assigned cursor.old) result cursor.new }
{
    match cursor.peek() {
        Some(TokenKind::On) => {
            let word = cursor.expect(TokenKind::On)?;
            Ok(Assigned::On(word))
        }
        Some(TokenKind::Off) => {
            let word = cursor.expect(TokenKind::Off)?;
            Ok(Assigned::Off(word))
        }
        _ => {
            let term = term(alloc, cursor)?;
            Ok(Assigned::Term(term))
        }
    }
}

#[tactic(auto, unfolding(crate::specs::Plans::assign))]
fn assign(alloc: Global, cursor: &mut Cursor<'_>) -> Result<Change, SyntaxError>
    ensures { Reads (spec.assign cursor.old) result cursor.new }
{
    let path = path(alloc, cursor)?;
    let mark = cursor.expect(TokenKind::Assign)?;
    let value = assigned(alloc, cursor)?;
    cursor
        .expect(TokenKind::Semicolon)
        .map(|semicolon| Change::Assign {
            path,
            mark,
            value,
            semicolon,
        })
}

#[tactic(auto, unfolding(crate::specs::Plans::insert))]
fn insert(alloc: Global, cursor: &mut Cursor<'_>) -> Result<Change, SyntaxError>
    ensures { Reads (spec.insert cursor.old) result cursor.new }
{
    let word = cursor.expect(TokenKind::Insert)?;
    let atom = cursor.name(alloc)?;
    let into_word = cursor.expect(TokenKind::Into)?;
    let set = path(alloc, cursor)?;
    cursor
        .expect(TokenKind::Semicolon)
        .map(|semicolon| Change::Insert {
            word,
            atom,
            into_word,
            set,
            semicolon,
        })
}

#[tactic(auto, unfolding(crate::specs::Plans::change))]
fn change(alloc: Global, cursor: &mut Cursor<'_>) -> Result<Change, SyntaxError>
    ensures { Reads (spec.change cursor.old) result cursor.new }
{
    match cursor.peek() {
        Some(TokenKind::Insert) => insert(alloc, cursor),
        _ => assign(alloc, cursor),
    }
}

impl Listed for Change {
    ghost use Rattle.std.specs.Prelude.{[], ◌∷◌};
    ghost use Rattle.lucy_lexer.specs.declared.token.TokenKind.TheVariants as k;
    ghost use Rattle.lucy_syntax.specs.Input.{ahead};
    ghost use Rattle.lucy_syntax.specs.Lists.{alone};
    ghost use Rattle.lucy_syntax.specs.Plans.{change};

    type Mark = Span;

    type Item = Change;

    ghost begun = { ahead (k.Name ∷ k.Insert ∷ []) };

    ghost read = { change };

    ghost joined = { alone };

    fn begun(cursor: &mut Cursor<'_>) -> Option<Span> {
        cursor.ahead(&[TokenKind::Name, TokenKind::Insert])
    }

    fn read(alloc: Global, cursor: &mut Cursor<'_>) -> Result<Change, SyntaxError> {
        change(alloc, cursor)
    }

    fn joined(_: Span, item: Change) -> Change {
        item
    }
}

#[tactic(auto, unfolding(crate::specs::Plans::changes))]
fn changes(alloc: Global, cursor: &mut Cursor<'_>) -> Result<Items<Change>, SyntaxError>
    ensures { Reads (spec.changes cursor.old) result cursor.new }
{
    many(alloc, cursor)
}

/// What stands after the condition of a branch.
#[derive(Drop)]
struct BranchEnd {
    open_brace: Span,
    changes: Items<Change>,
    close_brace: Span,
}

#[tactic(auto, unfolding(crate::specs::Plans::block))]
fn block(alloc: Global, cursor: &mut Cursor<'_>) -> Result<BranchEnd, SyntaxError>
    ensures { Reads (spec.block cursor.old) result cursor.new }
{
    let open_brace = cursor.expect(TokenKind::OpenBrace)?;
    let changes = changes(alloc, cursor)?;
    cursor
        .expect(TokenKind::CloseBrace)
        .map(|close_brace| BranchEnd {
            open_brace,
            changes,
            close_brace,
        })
}

#[tactic(auto, unfolding(crate::specs::Plans::branch))]
fn branch(alloc: Global, cursor: &mut Cursor<'_>) -> Result<Branch, SyntaxError>
    ensures { Reads (spec.branch cursor.old) result cursor.new }
{
    let word = cursor.expect(TokenKind::When)?;
    let cond = cond(alloc, cursor, DEEPEST)?;
    block(alloc, cursor).map(|block| Branch {
        word,
        cond,
        open_brace: block.open_brace,
        changes: block.changes,
        close_brace: block.close_brace,
    })
}

impl Listed for Branch {
    ghost use Rattle.std.specs.Prelude.{[], ◌∷◌};
    ghost use Rattle.lucy_lexer.specs.declared.token.TokenKind.TheVariants as k;
    ghost use Rattle.lucy_syntax.specs.Input.{ahead};
    ghost use Rattle.lucy_syntax.specs.Lists.{alone};
    ghost use Rattle.lucy_syntax.specs.Plans.{branch};

    type Mark = Span;

    type Item = Branch;

    ghost begun = { ahead (k.When ∷ []) };

    ghost read = { branch };

    ghost joined = { alone };

    fn begun(cursor: &mut Cursor<'_>) -> Option<Span> {
        cursor.ahead(&[TokenKind::When])
    }

    fn read(alloc: Global, cursor: &mut Cursor<'_>) -> Result<Branch, SyntaxError> {
        branch(alloc, cursor)
    }

    fn joined(_: Span, item: Branch) -> Branch {
        item
    }
}

#[tactic(auto, unfolding(crate::specs::Plans::branches))]
fn branches(alloc: Global, cursor: &mut Cursor<'_>) -> Result<Items<Branch>, SyntaxError>
    ensures { Reads (spec.branches cursor.old) result cursor.new }
{
    many(alloc, cursor)
}

/// The parameters of a transaction.
#[derive(Drop)]
struct TxnParams {
    open_paren: Span,
    params: Option<Chain<Param>>,
    close_paren: Span,
}

#[tactic(auto, unfolding(crate::specs::Plans::signature))]
fn signature(alloc: Global, cursor: &mut Cursor<'_>) -> Result<TxnParams, SyntaxError>
    ensures { Reads (spec.signature cursor.old) result cursor.new }
{
    let open_paren = cursor.expect(TokenKind::OpenParen)?;
    let params = params(alloc, cursor)?;
    cursor
        .expect(TokenKind::CloseParen)
        .map(|close_paren| TxnParams {
            open_paren,
            params,
            close_paren,
        })
}

/// The branches of a transaction.
#[derive(Drop)]
struct TxnEnd {
    open_brace: Span,
    branches: Items<Branch>,
    close_brace: Span,
}

#[tactic(auto, unfolding(crate::specs::Plans::body))]
fn body(alloc: Global, cursor: &mut Cursor<'_>) -> Result<TxnEnd, SyntaxError>
    ensures { Reads (spec.body cursor.old) result cursor.new }
{
    let open_brace = cursor.expect(TokenKind::OpenBrace)?;
    let branches = branches(alloc, cursor)?;
    cursor
        .expect(TokenKind::CloseBrace)
        .map(|close_brace| TxnEnd {
            open_brace,
            branches,
            close_brace,
        })
}

#[tactic(auto, unfolding(crate::specs::Plans::txn))]
fn txn(alloc: Global, cursor: &mut Cursor<'_>) -> Result<Txn, SyntaxError>
    ensures { Reads (spec.txn cursor.old) result cursor.new }
{
    let word = cursor.expect(TokenKind::Txn)?;
    let name = cursor.name(alloc)?;
    match signature(alloc, cursor) {
        Err(error) => refused(name, error),
        Ok(
            TxnParams {
                open_paren,
                params,
                close_paren,
            },
        ) => body(alloc, cursor).map(|body| Txn {
            word,
            name,
            open_paren,
            params,
            close_paren,
            open_brace: body.open_brace,
            branches: body.branches,
            close_brace: body.close_brace,
        }),
    }
}

impl Listed for Txn {
    ghost use Rattle.std.specs.Prelude.{[], ◌∷◌};
    ghost use Rattle.lucy_lexer.specs.declared.token.TokenKind.TheVariants as k;
    ghost use Rattle.lucy_syntax.specs.Input.{ahead};
    ghost use Rattle.lucy_syntax.specs.Lists.{alone};
    ghost use Rattle.lucy_syntax.specs.Plans.{txn};

    type Mark = Span;

    type Item = Txn;

    ghost begun = { ahead (k.Txn ∷ []) };

    ghost read = { txn };

    ghost joined = { alone };

    fn begun(cursor: &mut Cursor<'_>) -> Option<Span> {
        cursor.ahead(&[TokenKind::Txn])
    }

    fn read(alloc: Global, cursor: &mut Cursor<'_>) -> Result<Txn, SyntaxError> {
        txn(alloc, cursor)
    }

    fn joined(_: Span, item: Txn) -> Txn {
        item
    }
}

#[tactic(auto, unfolding(crate::specs::Plans::txns))]
fn txns(alloc: Global, cursor: &mut Cursor<'_>) -> Result<Items<Txn>, SyntaxError>
    ensures { Reads (spec.txns cursor.old) result cursor.new }
{
    many(alloc, cursor)
}

impl Listed for Then<Int> {
    ghost use Rattle.lucy_lexer.specs.declared.token.TokenKind.TheVariants as k;
    ghost use Rattle.lucy_syntax.specs.Input.{eat};
    ghost use Rattle.lucy_syntax.specs.Lists.{then_of};
    ghost use Rattle.lucy_syntax.specs.Terms.{int};

    type Mark = Span;

    type Item = Int;

    ghost begun = { eat k.Comma };

    ghost read = { int };

    ghost joined = { then_of };

    fn begun(cursor: &mut Cursor<'_>) -> Option<Span> {
        cursor.eat(TokenKind::Comma)
    }

    fn read(_: Global, cursor: &mut Cursor<'_>) -> Result<Int, SyntaxError> {
        int(cursor)
    }

    fn joined(mark: Span, item: Int) -> Then<Int> {
        Then { mark, item }
    }
}

#[tactic(auto, unfolding(crate::specs::Plans::more_numbers))]
fn more_numbers(alloc: Global, cursor: &mut Cursor<'_>) -> Result<Items<Then<Int>>, SyntaxError>
    ensures { Reads (spec.more_numbers cursor.old) result cursor.new }
{
    many(alloc, cursor)
}

#[tactic(auto, unfolding(crate::specs::Plans::point))]
fn point(alloc: Global, cursor: &mut Cursor<'_>) -> Result<Point, SyntaxError>
    ensures { Reads (spec.point cursor.old) result cursor.new }
{
    let open_paren = cursor.expect(TokenKind::OpenParen)?;
    let first = int(cursor)?;
    let others = more_numbers(alloc, cursor)?;
    cursor
        .expect(TokenKind::CloseParen)
        .map(|close_paren| Point {
            open_paren,
            numbers: Chain { first, others },
            close_paren,
        })
}

impl Listed for Point {
    ghost use Rattle.std.specs.Prelude.{[], ◌∷◌};
    ghost use Rattle.lucy_lexer.specs.declared.token.TokenKind.TheVariants as k;
    ghost use Rattle.lucy_syntax.specs.Input.{ahead};
    ghost use Rattle.lucy_syntax.specs.Lists.{alone};
    ghost use Rattle.lucy_syntax.specs.Plans.{point};

    type Mark = Span;

    type Item = Point;

    ghost begun = { ahead (k.OpenParen ∷ []) };

    ghost read = { point };

    ghost joined = { alone };

    fn begun(cursor: &mut Cursor<'_>) -> Option<Span> {
        cursor.ahead(&[TokenKind::OpenParen])
    }

    fn read(alloc: Global, cursor: &mut Cursor<'_>) -> Result<Point, SyntaxError> {
        point(alloc, cursor)
    }

    fn joined(_: Span, item: Point) -> Point {
        item
    }
}

#[tactic(auto, unfolding(crate::specs::Plans::points))]
fn points(alloc: Global, cursor: &mut Cursor<'_>) -> Result<Items<Point>, SyntaxError>
    ensures { Reads (spec.points cursor.old) result cursor.new }
{
    many(alloc, cursor)
}

#[tactic(auto, unfolding(crate::specs::Plans::excepted))]
fn excepted(alloc: Global, cursor: &mut Cursor<'_>) -> Result<Option<Except>, SyntaxError>
    ensures { Reads (spec.excepted cursor.old) result cursor.new }
{
    let word = cursor.expect(TokenKind::Except)?;
    let first = point(alloc, cursor)?;
    let others = points(alloc, cursor)?;
    Ok(Some(Except {
        word,
        first,
        others,
    }))
}

#[tactic(auto, unfolding(crate::specs::Plans::except))]
fn except(alloc: Global, cursor: &mut Cursor<'_>) -> Result<Option<Except>, SyntaxError>
    ensures { Reads (spec.except cursor.old) result cursor.new }
{
    match cursor.peek() {
        Some(TokenKind::Except) => excepted(alloc, cursor),
        _ => Ok(None),
    }
}

/// What stands after the condition of a segment.
#[derive(Drop)]
struct SegmentEnd {
    except: Option<Except>,
    do_word: Span,
    txns: Items<Name>,
    semicolon: Span,
}

#[tactic(auto, unfolding(crate::specs::Plans::listed))]
fn listed(alloc: Global, cursor: &mut Cursor<'_>) -> Result<SegmentEnd, SyntaxError>
    ensures { Reads (spec.listed cursor.old) result cursor.new }
{
    let except = except(alloc, cursor)?;
    let do_word = cursor.expect(TokenKind::Do)?;
    let txns = names(alloc, cursor)?;
    cursor
        .expect(TokenKind::Semicolon)
        .map(|semicolon| SegmentEnd {
            except,
            do_word,
            txns,
            semicolon,
        })
}

#[tactic(auto, unfolding(crate::specs::Plans::segment))]
fn segment(alloc: Global, cursor: &mut Cursor<'_>) -> Result<Segment, SyntaxError>
    ensures { Reads (spec.segment cursor.old) result cursor.new }
{
    let word = cursor.expect(TokenKind::Segment)?;
    let name = cursor.name(alloc)?;
    let when_word = cursor.expect(TokenKind::When)?;
    let cond = cond(alloc, cursor, DEEPEST)?;
    listed(alloc, cursor).map(|listed| Segment {
        word,
        name,
        when_word,
        cond,
        except: listed.except,
        do_word: listed.do_word,
        txns: listed.txns,
        semicolon: listed.semicolon,
    })
}

impl Listed for Segment {
    ghost use Rattle.std.specs.Prelude.{[], ◌∷◌};
    ghost use Rattle.lucy_lexer.specs.declared.token.TokenKind.TheVariants as k;
    ghost use Rattle.lucy_syntax.specs.Input.{ahead};
    ghost use Rattle.lucy_syntax.specs.Lists.{alone};
    ghost use Rattle.lucy_syntax.specs.Plans.{segment};

    type Mark = Span;

    type Item = Segment;

    ghost begun = { ahead (k.Segment ∷ []) };

    ghost read = { segment };

    ghost joined = { alone };

    fn begun(cursor: &mut Cursor<'_>) -> Option<Span> {
        cursor.ahead(&[TokenKind::Segment])
    }

    fn read(alloc: Global, cursor: &mut Cursor<'_>) -> Result<Segment, SyntaxError> {
        segment(alloc, cursor)
    }

    fn joined(_: Span, item: Segment) -> Segment {
        item
    }
}

#[tactic(auto, unfolding(crate::specs::Plans::segments))]
fn segments(alloc: Global, cursor: &mut Cursor<'_>) -> Result<Items<Segment>, SyntaxError>
    ensures { Reads (spec.segments cursor.old) result cursor.new }
{
    many(alloc, cursor)
}

#[tactic(auto, unfolding(crate::specs::Plans::stated_depth))]
fn stated_depth(cursor: &mut Cursor<'_>) -> Result<Option<Depth>, SyntaxError>
    ensures { Reads (spec.stated_depth cursor.old) result cursor.new }
{
    let word = cursor.expect(TokenKind::Depth)?;
    let number = cursor.number()?;
    let semicolon = cursor.expect(TokenKind::Semicolon)?;
    Ok(Some(Depth {
        word,
        number,
        semicolon,
    }))
}

#[tactic(auto, unfolding(crate::specs::Plans::depth))]
fn depth(cursor: &mut Cursor<'_>) -> Result<Option<Depth>, SyntaxError>
    ensures { Reads (spec.depth cursor.old) result cursor.new }
{
    match cursor.peek() {
        Some(TokenKind::Depth) => stated_depth(cursor),
        _ => Ok(None),
    }
}

/// What stands after the invariant of a plan.
#[derive(Drop)]
struct PlanEnd {
    txns: Items<Txn>,
    segments: Items<Segment>,
    depth: Option<Depth>,
    end_word: Span,
}

#[tactic(auto, unfolding(crate::specs::Plans::parts))]
fn parts(alloc: Global, cursor: &mut Cursor<'_>) -> Result<PlanEnd, SyntaxError>
    ensures { Reads (spec.parts cursor.old) result cursor.new }
{
    let txns = txns(alloc, cursor)?;
    let segments = segments(alloc, cursor)?;
    let depth = depth(cursor)?;
    cursor.expect(TokenKind::End).map(|end_word| PlanEnd {
        txns,
        segments,
        depth,
        end_word,
    })
}

/// What stands before the transactions of a plan.
#[derive(Drop)]
struct PlanHead {
    object: Object,
    start: Start,
    invariant: Invariant,
}

#[tactic(auto, unfolding(crate::specs::Plans::head))]
fn head(alloc: Global, cursor: &mut Cursor<'_>) -> Result<PlanHead, SyntaxError>
    ensures { Reads (spec.head cursor.old) result cursor.new }
{
    let object = object(alloc, cursor)?;
    match start(alloc, cursor) {
        Err(error) => refused(object, error),
        Ok(start) => invariant(alloc, cursor).map(|invariant| PlanHead {
            object,
            start,
            invariant,
        }),
    }
}

/// A plan; what stands after its `end` is not looked at.
#[tactic(auto, unfolding(crate::specs::Plans::plan))]
pub fn plan(alloc: Global, cursor: &mut Cursor<'_>) -> Result<Tree, SyntaxError>
    ensures { Reads (spec.plan cursor.old) result cursor.new }
{
    let word = cursor.expect(TokenKind::Lucy)?;
    let version = cursor.number()?;
    let PlanHead {
        object,
        start,
        invariant,
    } = head(alloc, cursor)?;
    parts(alloc, cursor).map(|parts| Tree {
        word,
        version,
        object,
        start,
        invariant,
        txns: parts.txns,
        segments: parts.segments,
        depth: parts.depth,
        end_word: parts.end_word,
    })
}
