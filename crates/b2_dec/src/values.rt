// Values of either kind, and lists of them.
ghost use Rattle.std.specs.Prelude.{◌≡◌, ◌+◌, ◌<◌, ◌≤◌, ◌==◌, [], ◌∷◌, ◌++◌, length, SomeIff};

use crate::number::Dec;
use arrayvec::ArrayVec;
use std::marker::Model;

/// At most 255 bytes, without memory of their own. Contracts see them as a list.
#[derive(Drop)]
pub struct Bytes {
    items: ArrayVec<u8, 255>,
}

impl Model for Bytes {
    ghost use Rattle.std.specs.Prelude.{ℕ, List};

    ghost Value = { List ℕ };

    ghost view = { λ b. b.items.items };
}

impl Bytes {
    /// No bytes.
    pub fn new() -> Bytes
        ensures { result ≡ [] }
    {
        Bytes {
            items: ArrayVec::new(),
        }
    }

    /// These bytes, None where there are more than 255.
    pub fn of(bytes: &[u8]) -> Option<Bytes>
        ensures { SomeIff result (length bytes.now ≤ 255) bytes.now }
    {
        if bytes.len() > 255 {
            return None;
        }
        let mut all = Bytes::new();
        all.extend(bytes);
        Some(all)
    }

    /// How many bytes there are, from 0 to 255.
    pub fn len(&self) -> usize
        ensures count { result ≡ length self.now }
        ensures bound { result ≤ 255 }
    {
        self.items.len()
    }

    /// Whether there are none.
    pub fn is_empty(&self) -> bool
        ensures { result ≡ (length self.now == 0) }
    {
        self.items.is_empty()
    }

    /// All bytes.
    pub fn bytes(&self) -> &[u8]
        ensures value { result.now ≡ self.now }
        ensures bound { length result.now ≤ 255 }
    {
        self.items.as_slice()
    }

    /// Drops all bytes.
    pub fn clear(&mut self)
        ensures { self.new ≡ [] }
    {
        self.items.clear();
    }

    /// Adds a byte at the end.
    pub fn push(&mut self, byte: u8)
        requires { length self.old < 255 }
        ensures { self.new ≡ self.old ++ byte ∷ [] }
    {
        self.items.push(byte);
    }

    /// Adds bytes at the end.
    pub fn extend(&mut self, bytes: &[u8])
        requires { length self.old + length bytes.now ≤ 255 }
        ensures { self.new ≡ self.old ++ bytes.now }
    {
        let _fits = self.items.try_extend_from_slice(bytes);
    }
}

/// A value: a number or bytes.
#[derive(Drop)]
pub enum Value {
    Number(Dec),
    Alpha(Bytes),
}

/// Which kind of value.
#[derive(Clone, Copy)]
pub enum Kind {
    Number,
    Alpha,
}

/// Values in a `Vec`. Contracts see them as a list.
#[derive(Drop)]
pub struct ValueList {
    values: Vec<Value>,
}

impl Model for ValueList {
    ghost use Rattle.std.specs.Prelude.{List};
    ghost use Rattle.b2_dec.specs.declared.values.Value.{Value as AnyValue};

    ghost Value = { List AnyValue };

    ghost view = { λ l. l.values.items };
}

impl ValueList {
    /// The list of these values. It takes no memory.
    pub fn new(values: Vec<Value>) -> ValueList
        ensures { result ≡ values.items }
    {
        ValueList { values }
    }

    /// The values.
    pub fn values(&self) -> &[Value]
        ensures { result.now ≡ self.now }
    {
        &self.values
    }

    /// The values given back. It takes no memory.
    pub fn into_vec(self) -> Vec<Value>
        ensures { result.items ≡ self }
    {
        self.values
    }
}

/// Kinds in a `Vec`. Contracts see them as a list.
#[derive(Drop)]
pub struct KindList {
    kinds: Vec<Kind>,
}

impl Model for KindList {
    ghost use Rattle.std.specs.Prelude.{List};
    ghost use Rattle.b2_dec.specs.declared.values.Kind.{Kind};

    ghost Value = { List Kind };

    ghost view = { λ l. l.kinds.items };
}

impl KindList {
    /// The list of these kinds. It takes no memory.
    pub fn new(kinds: Vec<Kind>) -> KindList
        ensures { result ≡ kinds.items }
    {
        KindList { kinds }
    }

    /// The kinds.
    pub fn kinds(&self) -> &[Kind]
        ensures { result.now ≡ self.now }
    {
        &self.kinds
    }

    /// The kinds given back. It takes no memory.
    pub fn into_vec(self) -> Vec<Kind>
        ensures { result.items ≡ self }
    {
        self.kinds
    }
}
