ghost use Rattle.std.specs.Prelude.{◌≡◌};
ghost use Rattle.expression_binder.specs.Signs as signs;

use sql_ast::Operator;

/// An operator's sign, as a fault tells it.
pub(crate) fn sign(operator: Operator) -> &'static [u8]
    ensures { result.now ≡ signs.sign operator }
{
    match operator {
        Operator::Add => b"+",
        Operator::Subtract => b"-",
        Operator::Multiply => b"*",
        Operator::Divide => b"/",
        Operator::Remainder => b"%",
        Operator::Equal => b"=",
        Operator::NotEqual => b"<>",
        Operator::Less => b"<",
        Operator::LessEqual => b"<=",
        Operator::Greater => b">",
        Operator::GreaterEqual => b">=",
    }
}
