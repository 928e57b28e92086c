//! The files of the page, read once at the start.

use std::fs::File;
use std::io::{self, Read};
use tfs_web::{Content, PageFile};

/// The names of the files, in the order of `number_of`.
const NAMES: [&str; 9] = [
    "index.html",
    "page.css",
    "page.js",
    "parts.js",
    "workspaces.js",
    "workspace.js",
    "impact.js",
    "layout.js",
    "graph.js",
];

/// The bytes of the files.
#[derive(Drop)]
pub struct PageFiles {
    texts: Vec<Vec<u8>>,
}

impl PageFiles {
    /// Reads the files from a folder.
    pub fn read(rt: &HostRuntime, folder: &str) -> io::Result<PageFiles> {
        let mut texts = Vec::with_capacity(rt.alloc(), NAMES.len())?;
        for name in NAMES {
            let path = format!(in rt.alloc(); "{folder}/{name}")?;
            let mut text = Vec::new(rt.alloc());
            File::open(rt, path.as_str())?.read_to_end(&mut text)?;
            texts.push(text)?;
        }
        Ok(PageFiles { texts })
    }

    /// Returns the bytes of a file.
    pub(crate) fn text(&self, file: PageFile) -> &[u8] {
        match self.texts.get(number_of(file)) {
            Some(text) => text.as_slice(),
            None => &[],
        }
    }
}

/// Returns the number of a file.
fn number_of(file: PageFile) -> usize {
    match file {
        PageFile::Page => 0,
        PageFile::Styles => 1,
        PageFile::Script => 2,
        PageFile::Parts => 3,
        PageFile::Workspaces => 4,
        PageFile::Workspace => 5,
        PageFile::Impact => 6,
        PageFile::Layout => 7,
        PageFile::Graph => 8,
    }
}

/// Returns what a file is.
pub(crate) fn content_of(file: PageFile) -> Content {
    match file {
        PageFile::Page => Content::Html,
        PageFile::Styles => Content::Styles,
        _ => Content::Script,
    }
}
