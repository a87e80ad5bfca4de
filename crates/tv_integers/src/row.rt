//! A class with its integers. It doesn't know the heights.

ghost use Rattle.std.specs.Prelude.{◌≡◌, [], ◌∷◌, IfOk, OnOk, OnErr};
ghost use Rattle.tv_integers.specs.Rows.{put_value};

use crate::genus_value::GenusValue;
use crate::values::put_value;
use std::alloc::{AllocError, Global};
use std::marker::Model;
use tv_lattice::class::Class;

/// A class, and its integers by rising genus.
#[derive(Drop)]
pub struct ClassValues {
    class: Class,
    values: Vec<GenusValue>,
}

impl Model for ClassValues {
    ghost use Rattle.tv_integers.specs.Rows.{ClassRow};

    ghost Value = { ClassRow };

    ghost view = { λ row. record { class = row.class; values = row.values.items } };
}

impl ClassValues {
    /// The row of a class with one integer.
    pub fn new(alloc: Global, class: Class, value: GenusValue) -> Result<ClassValues, AllocError>
        ensures value { IfOk result (λ row. row ≡ record { class = class; values = value ∷ [] }) }
    {
        let mut values = Vec::new(alloc);
        values.push(value)?;
        Ok(ClassValues { class, values })
    }

    /// The row's class.
    pub fn class(&self) -> &Class
        ensures value { result.now ≡ self.now.class }
    {
        &self.class
    }

    /// The integers of its class.
    pub fn values(&self) -> &[GenusValue]
        ensures value { result.now ≡ self.now.values }
    {
        &self.values
    }

    /// Puts the value in, in place of one of its genus. On an error nothing has changed.
    pub fn put(&mut self, value: GenusValue) -> Result<(), AllocError>
        ensures ok { OnOk result (self.new ≡ record self.old { values = put_value value self.old.values }) }
        ensures err { OnErr result (self.new ≡ self.old) }
    {
        put_value(&mut self.values, value)
    }
}
