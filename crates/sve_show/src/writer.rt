use crate::spelled::Spelled;
use std::alloc::{AllocError, Global};
use sve_bytes::NoMemory;
use sve_token::Token;
use sve_tree::{Mark, PackageScope, Row, ScopedName};

/// What a tree is written to. Each of its tokens is written as it is spelled. The tokens are to be those from some number on
/// in order, and each that says which of several things is meant is to be spelled as the tree says. Want of memory is kept
/// until the end.
#[derive(Drop)]
pub struct Writer<'a> {
    tokens: &'a [Token],
    next: u32,
    in_order: bool,
    is_whole: bool,
    out: String,
}

/// What was written.
#[derive(Drop)]
pub struct Written {
    /// The text.
    pub text: String,
    /// The number of the token behind the last one that was written.
    pub end: u32,
    /// Whether all tokens were as they are to be.
    pub in_order: bool,
}

impl<'a> Writer<'a> {
    /// A writer with an empty text, whose first token is to be that of this number.
    pub fn new(alloc: Global, tokens: &'a [Token], from: u32) -> Writer<'a> {
        Writer {
            tokens,
            next: from,
            in_order: true,
            is_whole: true,
            out: String::new(alloc),
        }
    }

    /// What was written.
    ///
    /// # Errors
    /// Where memory was wanting for a part of it.
    pub fn finish(self) -> Result<Written, NoMemory> {
        let Writer {
            tokens: _,
            next,
            in_order,
            is_whole,
            out,
        } = self;
        if !is_whole {
            return Err(AllocError);
        }
        Ok(Written {
            text: out,
            end: next,
            in_order,
        })
    }

    /// Adds what is no token: a blank, or a bracket that shows what belongs together.
    pub fn add(&mut self, text: &str) {
        if self.out.push_str(text).is_err() {
            self.is_whole = false;
        }
    }

    /// Adds a token.
    pub fn token(&mut self, at: u32) {
        if at != self.next {
            self.in_order = false;
        }
        self.next = at.wrapping_add(1);
        match self.tokens.get(at as usize) {
            Some(token) => self.bytes(token.spelling.bytes()),
            None => self.in_order = false,
        }
    }

    /// Adds a token that is spelled like this.
    pub fn spelled(&mut self, at: u32, spelling: &str) {
        let is_so = match self.tokens.get(at as usize) {
            Some(token) => token.spelling.bytes() == spelling.as_bytes(),
            None => false,
        };
        if !is_so {
            self.in_order = false;
        }
        self.token(at);
    }

    /// Adds a token that says which of several things is meant.
    pub fn said<K: Spelled>(&mut self, mark: &Mark<K>) {
        self.spelled(mark.token, mark.kind.spelling());
    }

    /// Adds a token and a blank.
    pub fn token_apart(&mut self, at: u32) {
        self.token(at);
        self.blank();
    }

    /// Adds a blank.
    pub fn blank(&mut self) {
        self.add(" ");
    }

    /// Adds such a token and a blank, where there is one.
    pub fn said_before<K: Spelled>(&mut self, mark: &Option<Mark<K>>) {
        if let Some(mark) = mark {
            self.said(mark);
            self.blank();
        }
    }

    /// Adds a blank and such a token, where there is one.
    pub fn said_behind<K: Spelled>(&mut self, mark: &Option<Mark<K>>) {
        if let Some(mark) = mark {
            self.blank();
            self.said(mark);
        }
    }

    /// Adds a package in front of a name.
    pub fn scope(&mut self, scope: &PackageScope) {
        self.token(scope.name);
        self.token(scope.colons);
    }

    /// Adds a name, with that of its package.
    pub fn scoped_name(&mut self, name: &ScopedName) {
        if let Some(scope) = &name.scope {
            self.scope(scope);
        }
        self.token(name.name);
    }

    /// Adds the separator that stands in front of the item of this number, and a blank. In front of the first item there is none.
    pub fn separator(&mut self, separators: &[u32], item: usize) {
        if item == 0 {
            return;
        }
        match separators.get(item - 1) {
            Some(separator) => self.token_apart(*separator),
            None => self.in_order = false,
        }
    }

    /// Adds a row of names.
    pub fn names(&mut self, row: &Row<u32>) {
        for (number, name) in row.items.iter().enumerate() {
            self.separator(&row.separators, number);
            self.token(*name);
        }
    }

    /// Adds the bytes of a token.
    fn bytes(&mut self, bytes: &[u8]) {
        for byte in bytes {
            if self.out.push(char::from(*byte)).is_err() {
                self.is_whole = false;
            }
        }
    }
}
