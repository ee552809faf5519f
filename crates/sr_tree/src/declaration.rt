use crate::expr::Expr;
use crate::name::{Name, QualifiedName};
use crate::types::{Decl, Signature, TypeTree};
use sr_value::{Row, Span};

/// `import names`
#[derive(Drop)]
pub struct Import {
    pub span: Span,
    pub names: Row<Name>,
}

/// `const name : ty := value`
#[derive(Drop)]
pub struct ConstDecl {
    pub span: Span,
    pub name: Name,
    pub ty: Option<TypeTree>,
    pub value: Expr,
}

/// `type name = ty`
#[derive(Drop)]
pub struct TypeDecl {
    pub span: Span,
    pub name: Name,
    pub ty: TypeTree,
}

/// `optype name = signature`
#[derive(Drop)]
pub struct OpTypeDecl {
    pub span: Span,
    pub name: Name,
    pub signature: Signature,
}

/// `op items`
#[derive(Drop)]
pub struct OpDecl {
    pub span: Span,
    pub items: Row<OpItem>,
}

/// An operation that is declared.
#[derive(Drop)]
pub enum OpItem {
    /// `name signature`
    Signed {
        span: Span,
        name: Name,
        signature: Signature,
    },
    /// `name : optype`
    Typed {
        span: Span,
        name: Name,
        optype: QualifiedName,
    },
}

/// `var decls : ty := values`
#[derive(Drop)]
pub struct VarDecl {
    pub span: Span,
    pub decls: Row<Decl>,
    pub ty: Option<TypeTree>,
    /// None where no `:=` is written.
    pub values: Row<Expr>,
}

/// `sem semaphores`
#[derive(Drop)]
pub struct SemDecl {
    pub span: Span,
    pub semaphores: Row<Semaphore>,
}

/// A semaphore with the value that it begins with, where one is written: `name := value`.
#[derive(Drop)]
pub struct Semaphore {
    pub span: Span,
    pub name: Name,
    pub value: Option<Expr>,
}
