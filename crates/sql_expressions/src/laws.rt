ghost use Rattle.std.specs.Prelude.{◌≡◌, ℕ, List};
ghost use Rattle.sql_expressions.specs.Grammar as grammar;
ghost use Rattle.sql_expressions.specs.Limits.{IsWithin, StandIn};
ghost use Rattle.sql_ast.specs.Expressions.{Tree};
ghost use Rattle.sql_tokens.specs.declared.token.Token.{Token as OneToken};

/// No text is that of two trees, even where the second is one without limits. The call does nothing.
pub fn no_two_trees()
    ensures { (text : List ℕ) (tokens : List OneToken) (a b : Tree) → (grammar.expression text).texts tokens a → (grammar.expression text).free tokens b → b ≡ a }
{}

/// Tokens of a text are an expression within the limits just if they are one without limits that is
/// not too deep and has no token that is too long. The call does nothing.
pub fn the_limits()
    ensures within { (text : List ℕ) (tokens : List OneToken) (tree : Tree) → StandIn text tokens → (grammar.expression text).texts tokens tree → IsWithin text tokens tree }
    ensures all { (text : List ℕ) (tokens : List OneToken) (tree : Tree) → IsWithin text tokens tree → (grammar.expression text).texts tokens tree }
{}
