ghost use Rattle.std.specs.Prelude.{◌≡◌, ◌≤◌, IfSome};
ghost use Rattle.smv_grammar.specs.Formulas.{joining_by, outermost};

use smv_token::Mark;
use smv_tree::FormOp;

/// The operators between formulas, with their levels.
pub fn joining_by(mark: Mark) -> Option<(u32, FormOp)>
    ensures value { result ≡ joining_by mark }
    ensures some { IfSome result (λ o. 2 ≤ o.0) }
    ensures small { IfSome result (λ o. o.0 ≤ outermost) }
{
    match mark {
        Mark::WordU => Some((2, FormOp::Until)),
        Mark::WordV => Some((2, FormOp::Releases)),
        Mark::Ampersand => Some((3, FormOp::And)),
        Mark::Bar => Some((4, FormOp::Or)),
        Mark::Xor => Some((4, FormOp::Xor)),
        Mark::Xnor => Some((4, FormOp::Xnor)),
        Mark::Iff => Some((5, FormOp::Iff)),
        Mark::Arrow => Some((6, FormOp::Implies)),
        _ => None,
    }
}
