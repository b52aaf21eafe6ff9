// A case as it stands in its file.
use std::fs;
use std::rt::Files;

/// What is given and what is expected, under a line that says what the case shows.
#[derive(Drop)]
pub struct Case {
    path: String,
    text: String,
}

impl Case {
    /// The case of the file at this path.
    pub fn read(rt: &(impl Files + AllocGlobal), path: &str) -> anyhow::Result<Case> {
        let text = fs::read_to_string(rt, path)?;
        Ok(Case {
            path: String::from_str(rt.alloc(), path)?,
            text,
        })
    }

    /// The path of its file.
    pub fn path(&self) -> &str {
        self.path.as_str()
    }

    // The lines above the line `expect`, and all that follows it.
    fn halves(&self) -> (&str, &str) {
        match self.text.as_str().split_once("\nexpect\n") {
            Some(halves) => halves,
            None => (self.text.as_str(), ""),
        }
    }

    /// What the case shows: its first line.
    pub fn title(&self) -> &str {
        self.halves().0.lines().next().unwrap_or("")
    }

    /// The lines between the first one and the line `expect`, each a key, a space, and what is given for it.
    pub fn given(&self) -> &str {
        match self.halves().0.split_once('\n') {
            Some((_, given)) => given,
            None => "",
        }
    }

    /// What is given under this key, where it first is.
    pub fn value<'a>(&'a self, key: &str) -> Option<&'a str> {
        for line in self.given().lines() {
            if let Some((name, value)) = line.split_once(' ') {
                if name == key {
                    return Some(value);
                }
            }
        }
        None
    }

    /// The text that is expected.
    pub fn expected(&self) -> &str {
        self.halves().1
    }
}
