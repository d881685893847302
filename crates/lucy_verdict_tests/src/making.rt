//! A plan, a certificate of it, and what is told of an answer.

use lucy_judge::Checked;
use lucy_plan::Plan;
use lucy_reading::read_plan;
use lucy_stream::StreamError;
use std::alloc::Global;
use std::sync::Arc;

/// A plan in which one number stays below another.
pub const BELOW: &str =
    "lucy 1 object { max x in 0..10; max y in 0..10; } start { } invariant x <= y; txn up() { when true { y := y + 1; } } segment main when true do up; end";

/// A certificate that it is sound: the merge's first number is above neither that of the first state nor that of the second.
pub const KEPT: &str = "lucy certificate 1
part closure 0
lemma 1*0 -1*4 <= -1, -1*0 1*1 <= -1, -1*1 1*5 <= -1, 1*4 -1*5 <= 0
+ 1 n0 1 n1 1 n2 1 n3
qed
lemma 1*2 -1*4 <= -1, -1*2 1*3 <= -1, -1*3 1*5 <= -1, 1*4 -1*5 <= 0
+ 1 n0 1 n1 1 n2 1 n3
qed
rup by 0 5 8 9 1 6 10 4
part cover
end
";

/// The plan of a text, to be shared, or `None` where it is no plan.
pub fn shared_plan(alloc: Global, text: &str) -> Option<Arc<Plan>> {
    match read_plan(alloc, "plan", text.as_bytes()) {
        Ok((plan, names)) => {
            drop(names);
            Arc::new(alloc, plan).ok()
        }
        Err(_) => None,
    }
}

/// `accepted`, or the name of the error.
pub fn told(alloc: Global, answer: Result<Checked, StreamError>) -> Option<String> {
    match answer {
        Ok(checked) => {
            drop(checked);
            String::from_str(alloc, "accepted").ok()
        }
        Err(error) => format!(in alloc; "{:?}", error).ok(),
    }
}
