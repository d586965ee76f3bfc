//! A client's window as it is kept.
use calls::Reply;
use client_window::Window;

/// A client, and the window of its calls.
#[derive(Drop)]
pub struct ClientWindow {
    pub client: u16,
    pub window: Window<Reply>,
}
