//! The plan that a script writes.

ghost use Rattle.std.specs.Prelude.{◌≡◌, ◌≢◌, ◌++◌, [], List, IfErr, IfOk};
ghost use Rattle.zd_model.specs.Script.{BreaksLineRule, IsScript, RefusesScript, line_text};
ghost use Rattle.zd_script.specs.Fault.{IfBad};
ghost use Rattle.zd_script.specs.Limits.{IsLeftOfLimits, Spends};
ghost use Rattle.zd_script.specs.Line.{IsRightRequest};

use crate::ScriptFault;
use crate::limits::Limits;
use crate::line::first_line;
use crate::read::MOST_BYTES;
use std::alloc::Global;
use zd_model::{BadLine, Request};
use zd_plain::Plan;

/// The request that begins a text, what stands after its line, and what it leaves of the limits;
/// or the first rule that its line breaks.
fn next(text: &[u8], limits: Limits) -> Result<(Request, &[u8], Limits), BadLine>
    ensures line { IfOk result (λ next. text.now ≡ line_text next.0 ++ next.1.now) }
    ensures right { IfOk result (λ next. IsRightRequest next.0) }
    ensures spends { IfOk result (λ next. Spends limits next.2 next.0.what) }
    ensures err { IfErr result (λ why. (plan : List Request) →
        IsLeftOfLimits limits plan → text.now ≢ [] → BreaksLineRule plan text.now why) }
{
    let Some((line, rest)) = first_line(text) else {
        return Err(BadLine::Form);
    };
    let request = line.request()?;
    let Some(left) = limits.after(request.what) else {
        return Err(BadLine::TooLong);
    };
    Ok((request, rest, left))
}

/// The plan of a script. Bytes that are no script are bad: in line 0 where they are too many, and else
/// in the first line that breaks a rule, by the first rule that it breaks.
pub fn parse(alloc: Global, bytes: &[u8]) -> Result<Plan, ScriptFault>
    ensures ok { IfOk result (λ plan. IsScript bytes.now plan) }
    ensures bad { IfBad result (λ line why. RefusesScript bytes.now line why) }
    ensures source { result ≢ Err ScriptFault.Source }
{
    if bytes.len() > MOST_BYTES {
        return Err(ScriptFault::TOO_LONG);
    }
    let mut plan = Plan::new(alloc);
    let mut limits = Limits::WHOLE;
    let mut line = 0;
    let mut rest = bytes;
    while !rest.is_empty() {
        line += 1;
        let (request, after, left) = match next(rest, limits) {
            Ok(next) => next,
            Err(why) => return Err(ScriptFault::Bad { line, why }),
        };
        plan.push(request)?;
        limits = left;
        rest = after;
    }
    Ok(plan)
}
