// The words of the command line, as texts.
use std::env::FillError;
use std::rt::Env;
use std::{env, io, str};

// The environment of the runtime. A word that isn't UTF-8 is empty here: no line has an empty word, so the
// top call refuses it at its place.
#[derive(Drop)]
struct TextEnv<'a> {
    rt: &'a HostRuntime,
}

impl Env for TextEnv<'_> {
    fn arg(&self, i: usize, buf: &mut [u8]) -> Result<usize, FillError> {
        let len = self.rt.arg(i, buf)?;
        if str::from_utf8(&buf[..len]).is_err() {
            return Ok(0);
        }
        Ok(len)
    }

    fn var(&self, name: &str, buf: &mut [u8]) -> Result<usize, FillError> {
        self.rt.var(name, buf)
    }

    fn var_at(&self, i: usize, buf: &mut [u8]) -> Result<usize, FillError> {
        self.rt.var_at(i, buf)
    }

    fn current_dir(&self, buf: &mut [u8]) -> io::Result<usize> {
        self.rt.current_dir(buf)
    }

    fn set_current_dir(&self, path: &str) -> io::Result<()> {
        self.rt.set_current_dir(path)
    }
}

/// The words of the command line, without the program's name. There is an error only where there is no
/// memory for them.
pub fn read_words(rt: &HostRuntime) -> io::Result<Vec<String>> {
    let text_env = (TextEnv { rt }, rt.alloc());
    Ok(env::args(&text_env)?.skip(1).collect(rt.alloc())?)
}
