//! What is written to the keyboard controller, and what its keyboard sends.

ghost use Rattle.std.specs.Prelude.{◌≡◌, IsTrue};
ghost use Rattle.mdl_dev.specs.Keyboard.{is_keyboard_port, queued, command_action, data_action, after_action};
ghost use Rattle.mdl_dev.specs.Keyboard.{is_reply, action_line, asks_reset, seen_write, output_action};
ghost use Rattle.mdl_dev.specs.Keyboard.{after_output, output_told, after_key, key_line};

use crate::keyboard::{Kbd, has};
use mdl_dev::keyboard::{
    ACKNOWLEDGE, Action, Awaited, DATA_PORT, DISABLE_KEYBOARD, ENABLE_KEYBOARD, INPUT_PORT,
    INTERFACE_PASSED, INTERFACE_TEST, KEYBOARD_OFF, KEYBOARD_PASSED, NO_RESET, PULSE_RESET, QUEUE,
    READ_COMMAND_BYTE, READ_INPUT_PORT, READ_OUTPUT_PORT, RESET_KEYBOARD, SELF_TEST,
    SELF_TEST_PASSED, Told, WRITE_COMMAND_BYTE, WRITE_OUTPUT_PORT,
};

/// What a byte of data comes to.
fn data_action(awaited: Awaited, byte: u8) -> Action
    ensures { result ≡ data_action awaited byte }
{
    match awaited {
        Awaited::CommandByte => Action::SetCommandByte(byte),
        Awaited::OutputPort => Action::SetOutputPort(byte),
        Awaited::Nothing if byte == RESET_KEYBOARD => {
            Action::SendBoth(ACKNOWLEDGE, KEYBOARD_PASSED)
        }
        Awaited::Nothing => Action::Send(ACKNOWLEDGE),
    }
}

fn asks_reset(action: Action) -> bool
    ensures { result ≡ asks_reset action }
{
    match action {
        Action::ResetProcessor => true,
        Action::SetOutputPort(byte) => !has(byte, NO_RESET),
        _ => false,
    }
}

fn is_reply(action: Action) -> bool
    ensures { result ≡ is_reply action }
{
    matches!(action, Action::Reply(_))
}

impl Kbd {
    /// What a command comes to.
    #[rattlefmt::skip]
    fn command_action(&self, byte: u8) -> Action
        ensures { result ≡ command_action self.now byte }
    {
        match byte {
            READ_COMMAND_BYTE  => Action::Reply(self.command_byte),
            WRITE_COMMAND_BYTE => Action::Await(Awaited::CommandByte),
            SELF_TEST          => Action::Reply(SELF_TEST_PASSED),
            INTERFACE_TEST     => Action::Reply(INTERFACE_PASSED),
            DISABLE_KEYBOARD   => Action::SetCommandByte(self.command_byte | KEYBOARD_OFF),
            ENABLE_KEYBOARD    => Action::SetCommandByte(self.command_byte & !KEYBOARD_OFF),
            READ_INPUT_PORT    => Action::Reply(INPUT_PORT),
            READ_OUTPUT_PORT   => Action::Reply(self.output_port),
            WRITE_OUTPUT_PORT  => Action::Await(Awaited::OutputPort),
            PULSE_RESET        => Action::ResetProcessor,
            _                  => Action::Ignore,
        }
    }

    /// A byte of the keyboard waits behind the others, or is lost where all places are taken.
    fn send(&mut self, byte: u8)
        ensures { self.new ≡ record self.old { queue = queued self.old.queue byte } }
    {
        if !self.queue.is_full() {
            self.queue.push(byte);
        }
    }

    fn perform(&mut self, action: Action)
        ensures { self.new ≡ after_action action self.old }
    {
        match action {
            Action::Reply(byte) => {
                self.replies = true;
                self.reply = byte;
            }
            Action::Await(awaited) => self.awaited = awaited,
            Action::SetCommandByte(byte) => self.command_byte = byte,
            Action::SetOutputPort(byte) => self.output_port = byte,
            Action::Send(byte) => self.send(byte),
            Action::SendBoth(first, second) => {
                self.send(first);
                self.send(second);
            }
            Action::ResetProcessor | Action::Ignore => {}
        }
    }

    /// Does what a write or a key comes to, and tells whether the line was raised.
    fn act(&mut self, action: Action) -> bool
        ensures line { result ≡ action_line action self.old }
        ensures state { self.new ≡ after_action action self.old }
    {
        let comes = is_reply(action) || self.front().is_none();
        self.perform(action);
        comes && self.raises()
    }

    fn see_write(&mut self, port: u16)
        ensures { self.new ≡ seen_write self.old port }
    {
        self.command_last = port != DATA_PORT;
        if port == DATA_PORT {
            self.awaited = Awaited::Nothing;
        }
    }

    fn output_action(&self, port: u16, value: u8) -> Action
        ensures { result ≡ output_action self.now port value }
    {
        if port == DATA_PORT {
            data_action(self.awaited, value)
        } else {
            self.command_action(value)
        }
    }

    /// A write to one of its ports: port 64h takes a command, port 60h the byte that one awaits,
    /// else a byte for the keyboard, which answers.
    pub fn output(&mut self, port: u16, value: u8) -> Told
        requires { IsTrue (is_keyboard_port port) }
        ensures told { result ≡ output_told self.old port value }
        ensures state { self.new ≡ after_output self.old port value }
    {
        let action = self.output_action(port, value);
        self.see_write(port);
        Told {
            line: self.act(action),
            reset: asks_reset(action),
        }
    }

    /// The keyboard sends a byte, which waits, or is lost where 16 wait already. Tells whether the
    /// line was raised.
    pub fn key(&mut self, byte: u8) -> bool
        ensures line { result ≡ key_line self.old byte }
        ensures state { self.new ≡ after_key self.old byte }
    {
        self.act(Action::Send(byte))
    }
}
