use std::env::FillError;
use std::rt::Env;

/// What a program is given, without its name: the arguments begin at the second. So the name is
/// never read, and need not be UTF-8.
#[derive(Drop)]
pub struct BehindName<'r, R> {
    inner: &'r R,
}

impl<'r, R> BehindName<'r, R> {
    pub fn new(inner: &'r R) -> Self {
        BehindName { inner }
    }
}

impl<R: Env> Env for BehindName<'_, R> {
    fn arg(&self, i: usize, buf: &mut [u8]) -> Result<usize, FillError> {
        match i.checked_add(1) {
            Some(place) => self.inner.arg(place, buf),
            None => Err(FillError::NotPresent),
        }
    }

    fn var(&self, name: &str, buf: &mut [u8]) -> Result<usize, FillError> {
        self.inner.var(name, buf)
    }

    fn var_at(&self, i: usize, buf: &mut [u8]) -> Result<usize, FillError> {
        self.inner.var_at(i, buf)
    }
}
