//! Code that is played many times, under the name that keys have then.

use crate::names::Names;
use mc_answers::{Unanswered, load_sound, verify_code};
use mc_generate::{PutFault, put_under};
use mc_settings::Namespace;
use mc_sound::Checked;
use std::alloc::{AllocError, Global};
use std::sync::Arc;

/// Code, and the same under the last name.
pub(crate) struct Prepared {
    written: Checked,
    under: Option<Arc<Checked, Global>>,
    // How many names there were before that one.
    count: u64,
}

// One call drops its parts. A derived `Drop` would write them out at each end of each function that holds one.
impl Drop for Prepared {
    fn drop(self) {
        let Prepared {
            written: _,
            under: _,
            count: _,
        } = self;
    }
}

impl Prepared {
    /// This code.
    pub(crate) fn new(written: Checked) -> Prepared {
        Prepared {
            written,
            under: None,
            count: 0,
        }
    }

    /// The code of a script, if it is sound.
    pub(crate) fn of_script(alloc: Global, script: &[u8]) -> Result<Option<Prepared>, AllocError> {
        match load_sound(alloc, false, script) {
            Ok(written) => Ok(Some(Prepared::new(written))),
            Err(Unanswered::Refused(_)) => Ok(None),
            Err(Unanswered::OutOfMemory) => Err(AllocError),
        }
    }

    /// The code under the name that keys have now, and above that the one that was given; if it is sound, and its keys are short enough.
    pub(crate) fn code(
        &mut self,
        alloc: Global,
        given: Option<&Namespace<'_>>,
        names: &Names,
    ) -> Result<Option<&Arc<Checked, Global>>, AllocError> {
        if self.under.is_none() || self.count != names.count {
            self.under = code_under(alloc, &self.written, given, names)?;
            self.count = names.count;
        }
        Ok(self.under.as_ref())
    }
}

fn code_under(
    alloc: Global,
    written: &Checked,
    given: Option<&Namespace<'_>>,
    names: &Names,
) -> Result<Option<Arc<Checked, Global>>, AllocError> {
    let Some(own) = names.name() else {
        return Ok(None);
    };
    let under = match given {
        Some(given) => match put_under(alloc, written.code(), given) {
            Ok(code) => put_under(alloc, &code, &own),
            Err(fault) => Err(fault),
        },
        None => put_under(alloc, written.code(), &own),
    };
    match under {
        Ok(code) => match verify_code(alloc, code)? {
            Ok(checked) => Ok(Some(Arc::new(alloc, checked)?)),
            Err(_) => Ok(None),
        },
        Err(PutFault::KeyTooLong(_)) => Ok(None),
        Err(PutFault::OutOfMemory) => Err(AllocError),
    }
}
