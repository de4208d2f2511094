ghost use Rattle.grammar.specs.Parses.{IsOnly};
ghost use Rattle.sql_expressions.specs.Grammar as grammar;
ghost use Rattle.sql_expressions.specs.Limits.{StandIn};
ghost use Rattle.sql_expressions.specs.Parsed.{ParsesText, passed};
ghost use Rattle.sql_ast.specs.Expressions as expressions;
ghost use Rattle.sql_ast.specs.Expressions.{Tree};
ghost use Rattle.sql_ast.specs.declared.expr.Expr.{Expr as OneExpr};
ghost use Rattle.sql_expressions.specs.declared.refused.ParseRefused.{ParseRefused as OneRefusal};
ghost use Rattle.sql_expressions.specs.declared.refused.ParseRefused.TheVariants as refusals;
ghost use Rattle.sql_tokens.specs.Classes.{a, a_name};
ghost use Rattle.sql_tokens.specs.Contents.{name_in};
ghost use Rattle.sql_tokens.specs.Tokens.{tokens_of};
ghost use Rattle.sql_tokens.specs.declared.kind.TokenKind.TheVariants.{QuotedName};
ghost use Rattle.sql_tokens.specs.declared.token.Token.{Token as OneToken};
ghost use Rattle.sql_written.specs.Marks.{mark};
ghost use Rattle.sql_written.specs.Parentheses.{opened};
ghost use Rattle.sql_written.specs.Spelling as spelled;
ghost use Rattle.sql_written.specs.Writable.{IsWritable};
ghost use Rattle.sql_written.specs.Written.{written};
ghost use Rattle.std.specs.Prelude.{◌≡◌, ◌≤◌, ℕ, false, true, Contains, List, MatchResult, Result};

/// What a parse gives can be written: the whole of a text, or some of its tokens. The call does nothing.
pub fn parses_can_be_written()
    ensures whole { (text : List ℕ) (tree : Tree) → (grammar.expression text).texts (tokens_of text) tree → IsWritable tree }
    ensures part { (text : List ℕ) (tokens : List OneToken) (tree : Tree) → StandIn text tokens → (grammar.expression text).texts tokens tree → IsWritable tree }
{}

/// What is written of a tree is a text of that tree and of no other, within the limits. So a parser
/// answers the tree, unless its memory runs out. The call does nothing.
pub fn reads_back()
    ensures text { (tree : Tree) → IsWritable tree → IsOnly (grammar.expression (written tree)).texts (grammar.expression (written tree)).free (tokens_of (written tree)) tree }
    ensures parsed { (tree : Tree) (result : Result OneExpr OneRefusal) → IsWritable tree → ParsesText passed grammar.expression expressions.tree (written tree) result → MatchResult result (λ e. expressions.tree e ≡ tree) (λ e. e ≡ refusals.NoMemory) }
{}

/// No text of a tree opens fewer parentheses than what is written of it. The call does nothing.
pub fn no_fewer_parentheses()
    ensures { (tree : Tree) (text : List ℕ) (tokens : List OneToken) → IsWritable tree → (grammar.expression text).texts tokens tree → opened (tokens_of (written tree)) ≤ opened tokens }
{}

/// A name is written in quotes only where it must: not if a token without quotes, of any text, says it.
/// The call does nothing.
pub fn quotes_are_needed()
    ensures { (text : List ℕ) (token : OneToken) → Contains (tokens_of text) token → a_name token ≡ true → a QuotedName token ≡ false → spelled.name (name_in text token) ≡ mark token.kind (name_in text token) }
{}
