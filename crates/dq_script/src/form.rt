ghost use Rattle.std.specs.Prelude.{◌≡◌};
ghost use Rattle.serde_json.specs.View.{view};
ghost use Rattle.dq_script.specs.Forms.{form_of};
ghost use Rattle.dq_script.specs.Readings.{given};

use crate::misfit::{Misfit, here};
use crate::parts::number_of;
use crate::reads::Reads;
use serde_json::Value;
use std::alloc::Global;

// The form of a script: the second one bounds caches by cells, and has sessions and blends.
#[derive(Clone, Copy)]
pub enum Form {
    First,
    Second,
}

// The form of that number.
fn form_of(value: &Value) -> Option<Form>
    ensures { result ≡ form_of (view value.now) }
{
    let number = number_of(value, 1, 2)?;
    if number == 1 {
        Some(Form::First)
    } else {
        Some(Form::Second)
    }
}

// Reads the form.
pub struct ReadsForm;

impl Reads for ReadsForm {
    type Out = Form;

    ghost reading = { λ s d. given (form_of d) };

    fn read(&self, alloc: Global, value: &Value) -> Result<Form, Misfit> {
        match form_of(value) {
            Some(form) => Ok(form),
            None => Err(here(alloc)),
        }
    }
}
