//! How is an object written, member by member?

use serde::Serialize;
use std::alloc::{AllocError, Global};

/// The members of an object, each behind a comma but the first.
#[derive(Drop)]
pub struct Members {
    text: String,
}

impl Members {
    /// None yet.
    pub fn new(alloc: Global) -> Self {
        Members {
            text: String::new(alloc),
        }
    }

    /// Adds a member whose value is written already.
    pub fn push_written(&mut self, key: &str, json: &str) -> Result<(), AllocError> {
        let before = if self.text.is_empty() { "\"" } else { ",\"" };
        self.text.push_str(before)?;
        self.text.push_str(key)?;
        self.text.push_str("\":")?;
        self.text.push_str(json)
    }

    /// Adds a member.
    pub fn push<T: Serialize>(
        &mut self,
        alloc: Global,
        key: &str,
        value: &T,
    ) -> Result<(), AllocError> {
        match serde_json::to_string(alloc, value) {
            Ok(json) => self.push_written(key, json.as_str()),
            Err(_) => Err(AllocError),
        }
    }

    /// Adds a member that is an object.
    pub fn push_object(
        &mut self,
        alloc: Global,
        key: &str,
        members: &Members,
    ) -> Result<(), AllocError> {
        let json = members.object(alloc)?;
        self.push_written(key, json.as_str())
    }

    /// Adds all members of another.
    pub fn append(&mut self, other: &Members) -> Result<(), AllocError> {
        if !self.text.is_empty() && !other.text.is_empty() {
            self.text.push_str(",")?;
        }
        self.text.push_str(other.text.as_str())
    }

    /// The object with these members.
    pub fn object(&self, alloc: Global) -> Result<String, AllocError> {
        let mut json = String::from_str(alloc, "{")?;
        json.push_str(self.text.as_str())?;
        json.push_str("}")?;
        Ok(json)
    }
}

/// What a command tells in sentences, as values beside them, where they are asked for.
#[derive(Drop)]
pub struct Reasons {
    members: Option<Members>,
}

impl Reasons {
    /// They aren't asked for.
    pub fn unasked() -> Self {
        Reasons { members: None }
    }

    /// They are.
    pub fn asked(alloc: Global) -> Self {
        Reasons {
            members: Some(Members::new(alloc)),
        }
    }

    /// Adds a value by this name, where they are asked for.
    pub fn push<T: Serialize>(
        &mut self,
        alloc: Global,
        key: &str,
        value: &T,
    ) -> Result<(), AllocError> {
        match &mut self.members {
            Some(members) => members.push(alloc, key, value),
            None => Ok(()),
        }
    }

    /// Adds them to an object.
    pub(crate) fn add_to(&self, members: &mut Members) -> Result<(), AllocError> {
        match &self.members {
            Some(reasons) => members.append(reasons),
            None => Ok(()),
        }
    }
}
