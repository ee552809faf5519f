ghost use Rattle.std.specs.Prelude.{◌≡◌, ℕ, ◌-◌, ◌<◌, ◌≤◌, suc, List, length, Ok, Err};
ghost use Rattle.sr_reader.specs.Pieces.{IsLongest, IsDead};
ghost use Rattle.sr_tree.specs.declared.expr.Expr.{Expr};
ghost use Rattle.sr_tree.specs.declared.token.Token.{Token};
ghost use Rattle.sr_tree.specs.declared.types.TypeTree.{TypeTree};
ghost use Rattle.sr_tree.specs.Expressions.{SpellsExpr};
ghost use Rattle.sr_tree.specs.Types.{SpellsType};
ghost use Rattle.sr_expr_reader.specs.Readers.{readers, operand_at};
ghost use Rattle.sr_expr_reader.specs.TypeReaders.{type_at, type_readers};

/// A law of the grammar: one list of tokens has at most one expression.
pub fn one_expression()
    ensures { (a b : Expr) (u : List Token) → SpellsExpr 5 a u → SpellsExpr 5 b u → a ≡ b }
{}

/// A law of the readers, where they have enough turns: what is read is the longest piece from the front that spells
/// an expression; where reading fails, there is no longest piece, and unless the place is after the last token no
/// list with an expression begins with the tokens up to and with the place.
pub fn reads_longest()
    ensures longest { (s : List Token) (a : Expr) (q : List Token)
        → ((k : ℕ) → length s ≤ k → operand_at (readers k) 5 s ≡ Ok (a, q))
        → IsLongest (SpellsExpr 5) s a (length s - length q) }
    ensures none { (s : List Token) (left : ℕ)
        → ((k : ℕ) → length s ≤ k → operand_at (readers k) 5 s ≡ Err left)
        → (a : Expr) (count : ℕ) → IsLongest (SpellsExpr 5) s a count → ⊥ }
    ensures dead { (s : List Token) (left : ℕ)
        → ((k : ℕ) → length s ≤ k → operand_at (readers k) 5 s ≡ Err left) → 0 < left
        → IsDead (SpellsExpr 5) s (suc (length s - left)) }
{}

/// A law of the grammar: one list of tokens has at most one type.
pub fn one_type()
    ensures { (a b : TypeTree) (u : List Token) → SpellsType a u → SpellsType b u → a ≡ b }
{}

/// A law of the readers of types, where they have enough turns: what is read is the longest piece from the front that
/// spells a type; where reading fails, there is no longest piece, and unless the place is after the last token no
/// list with a type begins with the tokens up to and with the place.
pub fn reads_longest_type()
    ensures longest { (s : List Token) (a : TypeTree) (q : List Token)
        → ((k : ℕ) → length s ≤ k → type_at (type_readers k) s ≡ Ok (a, q))
        → IsLongest SpellsType s a (length s - length q) }
    ensures none { (s : List Token) (left : ℕ)
        → ((k : ℕ) → length s ≤ k → type_at (type_readers k) s ≡ Err left)
        → (a : TypeTree) (count : ℕ) → IsLongest SpellsType s a count → ⊥ }
    ensures dead { (s : List Token) (left : ℕ)
        → ((k : ℕ) → length s ≤ k → type_at (type_readers k) s ≡ Err left) → 0 < left
        → IsDead SpellsType s (suc (length s - left)) }
{}
