//! Expressions, which texts spell.
ghost use Rattle.std.specs.Prelude.{◌≡◌, IfOk};
ghost use Rattle.match_language.specs.Relations as spec;

use crate::field::{Field, Predicate};
use ovn_base::boxed::Boxed;
use ovn_base::list::{Bytes, List};
use ovn_base::memory::NoMemory;
use ovn_base::name::Name;
use std::alloc::{AllocError, Global};

/// An expression over a packet and its ports.
#[derive(PartialEq, Eq, Hash, Debug, Drop)]
pub enum Expr {
    /// `1` or `0`.
    Const(bool),
    Is(Predicate),
    Not(Boxed<Expr>),
    /// Two or more terms joined by `&&`.
    All(List<Expr>),
    /// Two or more terms joined by `||`.
    Any(List<Expr>),
    /// The field beside one value or several: equal to any of them, unlike all of them, or less or greater than one.
    Compare {
        field: Field,
        rel: Rel,
        values: List<Value>,
    },
}

/// A relation between a field and a value.
#[derive(Clone, Copy, PartialEq, Eq, Hash, Debug)]
pub enum Rel {
    Eq,
    Ne,
    Lt,
    Le,
    Gt,
    Ge,
}

/// A value beside which a field stands.
#[derive(Clone, PartialEq, Eq, Hash, Debug, Drop)]
pub enum Value {
    /// A number, of which the bits of the mask count.
    Number { bits: u64, mask: u64 },
    /// The text of a port's name; it need not be one that a port can have.
    Port(Bytes),
    /// The entries of an address set, `$NAME`.
    Set(Name),
    /// The ports of a group, `@NAME`.
    Group(Name),
}

impl Rel {
    /// The relation in a text.
    pub fn text(self) -> &'static [u8]
        ensures { result.now ≡ spec.rel_text self }
    {
        match self {
            Rel::Eq => b"==",
            Rel::Ne => b"!=",
            Rel::Lt => b"<",
            Rel::Le => b"<=",
            Rel::Gt => b">",
            Rel::Ge => b">=",
        }
    }

    /// Whether the relation is `==` or `!=`.
    pub fn is_equality(self) -> bool
        ensures { result ≡ spec.is_equality self }
    {
        match self {
            Rel::Eq | Rel::Ne => true,
            _ => false,
        }
    }
}

impl Value {
    /// An equal value in memory of its own.
    pub fn copy(&self) -> Result<Value, NoMemory>
        ensures { IfOk result (λ v. v ≡ self.now) }
    {
        match self {
            Value::Number { bits, mask } => Ok(Value::Number {
                bits: *bits,
                mask: *mask,
            }),
            Value::Port(text) => Ok(Value::Port(text.copy()?)),
            Value::Set(name) => Ok(Value::Set(*name)),
            Value::Group(name) => Ok(Value::Group(*name)),
        }
    }
}

fn copy_values(alloc: Global, values: &[Value]) -> Result<List<Value>, NoMemory>
    ensures { IfOk result (λ x. x ≡ values.now) }
{
    let mut all = List::new(alloc);
    for value in values {
        all.push(value.copy()?)?;
    }
    Ok(all)
}

#[cycle(copies)]
fn copy_all(alloc: Global, terms: &[Expr]) -> Result<List<Expr>, NoMemory>
    ensures { IfOk result (λ x. x ≡ terms.now) }
{
    let mut all = List::new(alloc);
    for term in terms {
        all.push(term.copy()?)?;
    }
    Ok(all)
}

impl Expr {
    /// An equal expression in memory of its own.
    #[cycle(copies)]
    pub fn copy(&self) -> Result<Expr, NoMemory>
        ensures { IfOk result (λ x. x ≡ self.now) }
    {
        match self {
            Expr::Const(truth) => Ok(Expr::Const(*truth)),
            Expr::Is(predicate) => Ok(Expr::Is(*predicate)),
            Expr::Not(term) => Ok(Expr::Not(Boxed::new(term.allocator(), term.get().copy()?)?)),
            Expr::All(terms) => Ok(Expr::All(copy_all(terms.allocator(), terms.as_slice())?)),
            Expr::Any(terms) => Ok(Expr::Any(copy_all(terms.allocator(), terms.as_slice())?)),
            Expr::Compare { field, rel, values } => Ok(Expr::Compare {
                field: *field,
                rel: *rel,
                values: copy_values(values.allocator(), values.as_slice())?,
            }),
        }
    }
}

impl Clone for Expr {
    ghost is_clone = { λ a b. b ≡ a };

    fn clone(&self) -> Result<Self, AllocError> {
        self.copy().map_err(|_| AllocError)
    }
}
