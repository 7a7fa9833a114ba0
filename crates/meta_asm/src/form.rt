ghost use Rattle.std.specs.Prelude.{◌≡◌, ◌≢◌, IfSome, IfNone};
ghost use Rattle.meta_asm.specs.Form.{form_name, words_for};
ghost use Rattle.meta_asm.specs.declared.form.Form as spec;

use meta_types::Text;

/// In which form a list is written.
#[derive(Clone, Copy)]
pub enum Form {
    /// With types left out.
    Short,
    /// With all types.
    Explicit,
}

impl Form {
    /// The form that the words ask for. It is `None` exactly if they ask for no form.
    pub fn parse(words: &[Text]) -> Option<Form>
        ensures some { IfSome result (λ form. words.now ≡ words_for form) }
        ensures none { IfNone result ((form : spec.Form) → words.now ≢ words_for form) }
    {
        match words {
            [word] => Form::named(word.as_bytes()),
            _ => None,
        }
    }

    /// The form that has the name. It is `None` exactly if no form has it.
    pub fn named(name: &[u8]) -> Option<Form>
        ensures some { IfSome result (λ form. name.now ≡ form_name form) }
        ensures none { IfNone result ((form : spec.Form) → name.now ≢ form_name form) }
    {
        if name == b"short".as_slice() {
            return Some(Form::Short);
        }
        if name == b"explicit".as_slice() {
            return Some(Form::Explicit);
        }
        None
    }
}
