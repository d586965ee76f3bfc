//! The shapes of a picture.
use crate::escape::put_escaped;
use std::alloc::{AllocError, Global};

/// A point: how far it is to the right, and how far down.
#[derive(Clone, Copy)]
pub(crate) struct At(pub(crate) u64, pub(crate) u64);

impl At {
    pub(crate) fn left(self, by: u64) -> Self {
        At(self.0.saturating_sub(by), self.1)
    }

    pub(crate) fn right(self, by: u64) -> Self {
        At(self.0.saturating_add(by), self.1)
    }

    pub(crate) fn up(self, by: u64) -> Self {
        At(self.0, self.1.saturating_sub(by))
    }

    pub(crate) fn down(self, by: u64) -> Self {
        At(self.0, self.1.saturating_add(by))
    }
}

/// Writes shapes one behind another. Classes name the rules of the style.
#[derive(Drop)]
pub(crate) struct Pen {
    alloc: Global,
    text: Vec<u8>,
}

impl Pen {
    /// Nothing is written yet.
    pub(crate) fn new(alloc: Global) -> Self {
        Pen {
            alloc,
            text: Vec::new(alloc),
        }
    }

    /// The allocator.
    pub(crate) fn alloc(&self) -> Global {
        self.alloc
    }

    /// What was written.
    pub(crate) fn written(self) -> Vec<u8> {
        let Pen { alloc: _, text } = self;
        text
    }

    /// Adds a text as it stands.
    pub(crate) fn put(&mut self, text: &str) -> Result<(), AllocError> {
        self.text.extend_from_slice(text.as_bytes())
    }

    /// Adds a line from one point to another, across or down.
    pub(crate) fn stroke(&mut self, class: &str, from: At, to: At) -> Result<(), AllocError> {
        let At(left, upper) = from;
        let At(right, lower) = to;
        let way = format!(in self.alloc; "M{left} {upper}L{right} {lower}")?;
        self.path(class, way.as_str())
    }

    /// Adds the head of an arrow whose point is here.
    pub(crate) fn head(
        &mut self,
        class: &str,
        point: At,
        to_right: bool,
    ) -> Result<(), AllocError> {
        let At(x, y) = point;
        let way = if to_right {
            format!(in self.alloc; "M{x} {y}l-7 -3v6z")?
        } else {
            format!(in self.alloc; "M{x} {y}l7 -3v6z")?
        };
        self.path(class, way.as_str())
    }

    /// Adds a path.
    pub(crate) fn path(&mut self, class: &str, way: &str) -> Result<(), AllocError> {
        let path = format!(in self.alloc; "<path class=\"{class}\" d=\"{way}\"/>")?;
        self.put(path.as_str())
    }

    /// Adds a circle.
    pub(crate) fn circle(
        &mut self,
        class: &str,
        middle: At,
        radius: u64,
    ) -> Result<(), AllocError> {
        let At(x, y) = middle;
        let circle = format!(in self.alloc;
            "<circle class=\"{class}\" cx=\"{x}\" cy=\"{y}\" r=\"{radius}\"/>"
        )?;
        self.put(circle.as_str())
    }

    /// Adds a rectangle by its upper left corner, its width and its height.
    pub(crate) fn area(&mut self, class: &str, corner: At, size: At) -> Result<(), AllocError> {
        let At(x, y) = corner;
        let At(width, height) = size;
        let place = format!(in self.alloc;
            "x=\"{x}\" y=\"{y}\" width=\"{width}\" height=\"{height}\""
        )?;
        let place = place.as_str();
        let area = format!(in self.alloc; "<rect class=\"{class}\" {place}/>")?;
        self.put(area.as_str())
    }

    /// Adds a text, cut where it has more than so many bytes.
    pub(crate) fn label(
        &mut self,
        class: &str,
        at: At,
        text: &[u8],
        most: usize,
    ) -> Result<(), AllocError> {
        let At(x, y) = at;
        let front = format!(in self.alloc; "<text class=\"{class}\" x=\"{x}\" y=\"{y}\">")?;
        self.put(front.as_str())?;
        self.cut(text, most)?;
        self.put("</text>")
    }

    // Adds a text of one column a byte, cut to so many.
    fn cut(&mut self, text: &[u8], most: usize) -> Result<(), AllocError> {
        let is_long = text.len() > most;
        for byte in text.iter().take(if is_long { most } else { text.len() }) {
            let shown = if *byte > 126 { b'?' } else { *byte };
            put_escaped(&mut self.text, &[shown])?;
        }
        if is_long {
            self.put("\u{2026}")?;
        }
        Ok(())
    }
}
