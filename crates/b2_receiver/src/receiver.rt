// What receivers name, once their subscripts and numbers were taken.
ghost use Rattle.std.specs.Prelude.{◌≡◌};
ghost use Rattle.b2_receiver.specs.Assigning.{is_alpha_receiver, is_global_buffer, is_global_receiver};

use b2_expr::Element;
use b2_vars::Var;

/// Bytes of an alpha value: how many stand before them, and how many they are.
#[derive(Clone, Copy)]
pub struct Portion {
    pub from: u8,
    pub count: u8,
}

/// An alpha element, and the bytes of it that are named: all of them, or those that STR names.
#[derive(Clone, Copy)]
pub struct AlphaReceiver {
    pub element: Element,
    pub portion: Portion,
}

/// A receiver of either kind.
#[derive(Clone, Copy)]
pub enum Receiver {
    Number(Element),
    Alpha(AlphaReceiver),
}

/// A whole array: whether its name has `@`, and the variable.
#[derive(Clone, Copy)]
pub struct Array {
    pub global: bool,
    pub var: Var,
}

/// Bytes that are filled or searched: those of an alpha receiver, or those of all values of an alpha array.
#[derive(Clone, Copy)]
pub enum Buffer {
    Value(AlphaReceiver),
    Array(Array),
}

impl Receiver {
    /// Whether it takes bytes.
    pub fn is_alpha(&self) -> bool
        ensures { result ≡ is_alpha_receiver self.now }
    {
        match self {
            Receiver::Number(_) => false,
            Receiver::Alpha(_) => true,
        }
    }

    /// Whether it is among the `@` variables.
    pub fn is_global(&self) -> bool
        ensures { result ≡ is_global_receiver self.now }
    {
        match self {
            Receiver::Number(element) => element.global,
            Receiver::Alpha(to) => to.element.global,
        }
    }
}

impl Buffer {
    /// Whether it is among the `@` variables.
    pub fn is_global(&self) -> bool
        ensures { result ≡ is_global_buffer self.now }
    {
        match self {
            Buffer::Value(to) => to.element.global,
            Buffer::Array(array) => array.global,
        }
    }
}
