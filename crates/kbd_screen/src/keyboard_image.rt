//! The keyboard controller as 24 bytes.

ghost use Rattle.std.specs.Prelude.{◌≡◌, ◌≤◌, ◌↔◌, ◌<◌, IsTrue, IsSome, IfSome, length, drop};
ghost use Rattle.std.specs.Int.{from_bool};
ghost use Rattle.mdl_dev.specs.Keyboard.{Keyboard};
ghost use Rattle.mdl_dev.specs.KeyboardImage.{awaited_code, keyboard_image, places_of, AreFree, IsKeyboardImage};

use crate::keyboard::{Kbd, Queue};
use mdl_dev::keyboard::{Awaited, QUEUE};

/// How many bytes stand before the places.
const HEADER: usize = 8;

fn awaited_code(awaited: Awaited) -> u8
    ensures { result ≡ awaited_code awaited }
{
    match awaited {
        Awaited::Nothing => 0,
        Awaited::CommandByte => 1,
        Awaited::OutputPort => 2,
    }
}

fn awaited_of(code: u8) -> Option<Awaited>
    ensures some { IsSome result ↔ (code < 3) }
    ensures code { IfSome result (λ awaited. awaited_code awaited ≡ code) }
{
    match code {
        0 => Some(Awaited::Nothing),
        1 => Some(Awaited::CommandByte),
        2 => Some(Awaited::OutputPort),
        _ => None,
    }
}

fn flag_of(code: u8) -> Option<bool>
    ensures some { IsSome result ↔ (code < 2) }
    ensures code { IfSome result (λ flag. from_bool flag ≡ code) }
{
    match code {
        0 => Some(false),
        1 => Some(true),
        _ => None,
    }
}

/// The bytes that wait, and zeros in the places that are free.
fn places_of(queue: &[u8]) -> [u8; QUEUE]
    requires { length queue.now ≤ QUEUE }
    ensures { result ≡ places_of queue.now }
{
    let mut places = [0; QUEUE];
    places[..queue.len()].copy_from_slice(queue);
    places
}

fn places_in(image: &[u8; 24]) -> &[u8]
    ensures { result.now ≡ drop 8 image.now }
{
    image.split_at(HEADER).1
}

fn are_free(places: &[u8]) -> bool
    ensures { IsTrue result ↔ AreFree places.now }
{
    places.iter().all(|&byte| byte == 0)
}

/// The bytes that wait in so many places, where the places behind them are free.
fn queue_of(waiting: u8, places: &[u8]) -> Option<Queue>
    requires { length places.now ≡ QUEUE }
    ensures some { IsSome result ↔ ((waiting ≤ QUEUE) × AreFree (drop waiting places.now)) }
    ensures waiting { IfSome result (λ queue. length queue.items ≡ waiting) }
    ensures places { IfSome result (λ queue. places_of queue.items ≡ places.now) }
{
    let (waiting, free) = places.split_at_checked(usize::from(waiting))?;
    if !are_free(free) {
        return None;
    }
    let mut queue = Queue::new();
    let Ok(()) = queue.try_extend_from_slice(waiting) else {
        return None;
    };
    Some(queue)
}

impl Kbd {
    /// The controller as bytes: the command byte, the output port, what is awaited (0 nothing, 1 the
    /// command byte, 2 the output port), 1 where the last write was to port 64h, the byte that port
    /// 60h gave last, 1 where the reply was not taken, the last reply, how many bytes wait, and 16
    /// places for them, the free ones 0.
    pub fn image(&self) -> [u8; 24]
        ensures image { result ≡ keyboard_image self.now }
        ensures ranges { IsKeyboardImage result }
    {
        let mut image = [0; 24];
        let waiting = self.queue.as_slice();
        let places = places_of(waiting);
        image[..HEADER].copy_from_slice(&[
            self.command_byte,
            self.output_port,
            awaited_code(self.awaited),
            u8::from(self.command_last),
            self.given,
            u8::from(self.replies),
            self.reply,
            waiting.len() as u8,
        ]);
        image[HEADER..].copy_from_slice(&places);
        image
    }

    /// The controller that has this image, or None where no controller has it.
    pub fn from_image(image: &[u8; 24]) -> Option<Kbd>
        ensures ranges { IsSome result ↔ IsKeyboardImage image.now }
        ensures image { IfSome result (λ k. keyboard_image k ≡ image.now) }
        ensures same { (k : Keyboard) → keyboard_image k ≡ image.now → result ≡ Some k }
    {
        let [
            command_byte,
            output_port,
            awaited,
            command_last,
            given,
            replies,
            reply,
            waiting,
            ..
        ] = *image;
        let awaited = awaited_of(awaited)?;
        let command_last = flag_of(command_last)?;
        let replies = flag_of(replies)?;
        let queue = queue_of(waiting, places_in(image))?;
        Some(Kbd {
            command_byte,
            output_port,
            awaited,
            command_last,
            given,
            replies,
            reply,
            queue,
        })
    }
}
