// Which kind an expression has.
ghost use Rattle.std.specs.Prelude.{◌≡◌};
ghost use Rattle.expression.specs.Kinds.{is_entity, is_role_expression};

use crate::Expression;

pub fn is_entity(x: Expression) -> bool
    ensures { result ≡ is_entity x }
{
    matches!(x, Expression::Entity(_))
}

pub fn is_role_expression(x: Expression) -> bool
    ensures { result ≡ is_role_expression x }
{
    matches!(x, Expression::Role(_))
}
