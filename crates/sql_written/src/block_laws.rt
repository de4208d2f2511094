ghost use Rattle.grammar.specs.Parses.{IsOnly};
ghost use Rattle.sql_expressions.specs.Parsed.{ParsesText};
ghost use Rattle.sql_expressions.specs.declared.refused.ParseRefused.{ParseRefused as OneRefusal};
ghost use Rattle.sql_expressions.specs.declared.refused.ParseRefused.TheVariants as refusals;
ghost use Rattle.sql_syntax.specs.CommandGrammar as grammar;
ghost use Rattle.sql_ast.specs.Commands.{at};
ghost use Rattle.sql_ast.specs.declared.setting_value.SettingValue.TheVariants.{Word};
ghost use Rattle.sql_ast.specs.Expressions.{leaf};
ghost use Rattle.sql_ast.specs.declared.leaf.Leaf.TheVariants.{Column};
ghost use Rattle.sql_expressions.specs.Lists.{other_name, plain_name};
ghost use Rattle.sql_syntax.specs.Block.{passed};
ghost use Rattle.sql_syntax.specs.Grammar.{block};
ghost use Rattle.sql_ast.specs.Statements.{StatementTree, statement_tree};
ghost use Rattle.sql_ast.specs.declared.statement.Statement.{Statement as OneStatement};
ghost use Rattle.sql_tokens.specs.Tokens.{tokens_of};
ghost use Rattle.sql_tokens.specs.declared.kind.TokenKind.TheVariants.{Local, Transaction};
ghost use Rattle.sql_tokens.specs.declared.token.Token.{Token as OneToken};
ghost use Rattle.sql_written.specs.Parentheses.{opened};
ghost use Rattle.sql_written.specs.Spelling as spelled;
ghost use Rattle.std.specs.Prelude.{◌≡◌, ◌≤◌, ◌∷◌, [], ℕ, List, MatchResult, Result, map};
ghost use Rattle.sql_written.specs.Bare.{BareWhereItMay};
ghost use Rattle.sql_written.specs.Commands as commands;
ghost use Rattle.sql_written.specs.Lists.{Each};
ghost use Rattle.sql_written.specs.Queries as queries;
ghost use Rattle.sql_written.specs.Statements.{written};
ghost use Rattle.sql_written.specs.Words.{name_unless};
ghost use Rattle.sql_written.specs.WritableStatements.{IsWritable};

/// What a parse of a block gives can be written. The call does nothing.
pub fn blocks_can_be_written()
    ensures { (text : List ℕ) (trees : List StatementTree) → (block text).texts (tokens_of text) trees → Each IsWritable trees }
{}

/// What is written of a statement is a block of that statement alone and of no others, within the
/// limits. So a parser answers it, unless its memory runs out. The call does nothing.
pub fn statements_read_back()
    ensures text { (tree : StatementTree) → IsWritable tree → IsOnly (block (written tree)).texts (block (written tree)).free (tokens_of (written tree)) (tree ∷ []) }
    ensures parsed { (tree : StatementTree) (result : Result (List OneStatement) OneRefusal) → IsWritable tree → ParsesText passed block (λ xs. map statement_tree xs) (written tree) result → MatchResult result (λ xs. map statement_tree xs ≡ tree ∷ []) (λ e. e ≡ refusals.NoMemory) }
{}

/// No block of a statement alone opens fewer parentheses than what is written of it. The call does nothing.
pub fn blocks_have_no_fewer_parentheses()
    ensures { (tree : StatementTree) (text : List ℕ) (tokens : List OneToken) → IsWritable tree → (block text).texts tokens (tree ∷ []) → opened (tokens_of (written tree)) ≤ opened tokens }
{}

/// A name stands in quotes only where it must: not if a token without quotes, of any text, says it at the
/// same place. So behind SET only LOCAL keeps its quotes, behind PREPARE only TRANSACTION, at the edge of a
/// range only MINVALUE and MAXVALUE, beside what is no name without quotes anywhere. The call does nothing.
pub fn quotes_in_blocks_are_needed()
    ensures anywhere { BareWhereItMay plain_name (λ name. name) spelled.name }
    ensures setting { BareWhereItMay (λ text. other_name text Local) (λ name. name) commands.setting_name }
    ensures value { BareWhereItMay grammar.setting_word Word commands.setting_word }
    ensures edge { BareWhereItMay grammar.edge (λ name. at (leaf (Column name))) commands.edge_name }
    ensures prepared { BareWhereItMay (λ text. other_name text Transaction) (λ name. name) (name_unless queries.is_transaction) }
{}
