//! What is computed of a text is what the relations say of it.
ghost use Rattle.std.specs.Prelude.{◌≡◌, ◌↔◌, ℕ, List, Bool, IsTrue, Some, None, take};
ghost use Rattle.spool_model.specs.Users.{IsUserName};
ghost use Rattle.job_script.specs.Check.{IsDirectory, IsUsableContext, first_fault, is_directory, is_user_name};
ghost use Rattle.job_script.specs.declared.headers.TheConstants.{MAX_HEADER};
ghost use Rattle.job_script.specs.Form.{IsJobText, JobMeaning, MeansJob};
ghost use Rattle.job_script.specs.Header.{BeginsWithHeader, HasHeader, IsHeaderFault};
ghost use Rattle.job_script.specs.HeaderIn.{header_in, header_place};

use crate::Context;

/// `header_in` and `header_place` say which header the bytes begin with, or where they leave every
/// header, and the first `MAX_HEADER` bytes alone matter to them.
pub fn headers_are_read_exactly(bytes: &[u8])
    ensures header { (user : List ℕ) (mail : Bool)
        → (header_in bytes.now ≡ Some (user, mail)) ↔ BeginsWithHeader bytes.now user mail }
    ensures none { (header_in bytes.now ≡ None) ↔ (¬ HasHeader bytes.now) }
    ensures place { ¬ HasHeader bytes.now → IsHeaderFault bytes.now (header_place bytes.now) }
    ensures header_in_prefix { header_in (take MAX_HEADER bytes.now) ≡ header_in bytes.now }
    ensures place_in_prefix { header_place (take MAX_HEADER bytes.now) ≡ header_place bytes.now }
{
    let _ = bytes;
}

/// A text means one thing at most, and of the form of job texts each thing has one text at most.
pub fn texts_and_meanings_are_one_to_one(text: &[u8], other: &[u8])
    ensures meaning { (one : JobMeaning) (two : JobMeaning) → MeansJob text.now one
        → MeansJob text.now two → one ≡ two }
    ensures text { (job : JobMeaning) → IsJobText text.now → IsJobText other.now
        → MeansJob text.now job → MeansJob other.now job → text.now ≡ other.now }
{
    let _ = text;
    let _ = other;
}

/// `is_user_name`, `is_directory` and `first_fault` compute what the facts of the same names say.
pub fn checks_are_tests(context: &Context)
    ensures user { IsTrue (is_user_name context.now.user) ↔ IsUserName context.now.user }
    ensures directory { IsTrue (is_directory context.now.directory) ↔ IsDirectory context.now.directory }
    ensures fit { (first_fault context.now ≡ None) ↔ IsUsableContext context.now }
{
    let _ = context;
}
