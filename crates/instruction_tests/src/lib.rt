// Examples of what a caller may make.
#![tactic(auto)]

#[cfg(test)]
mod tests {
    use bus::Refusal;
    use instruction::{
        Action, Address, Base, Instruction, Length, OneOperation, Operand, StringOperand,
        StringOperation, TwoOperation,
    };
    use number::width::Size;
    use std::test::Fail;

    const RESERVED: Result<(), Refusal> = Err(Refusal::ReservedEncoding(0));

    const FORBIDDEN: Result<(), Refusal> = Err(Refusal::ForbiddenMode(0));

    const NO_REGISTER: Result<(), Refusal> = Err(Refusal::NoSuchRegister);

    // Whether a caller may make an instruction, and what the attempt is refused with.
    fn attempt(action: Action, length: u32) -> Result<(), Refusal> {
        Instruction::new(action, length).map(|_| ())
    }

    fn mov(size: Size, first: Operand, second: Operand) -> Action {
        Action::Two(TwoOperation::Mov, size, size, first, second)
    }

    fn movc(first: Length, second: Length) -> Action {
        let [first, second] = [first, second].map(|length| StringOperand {
            operand: Operand::Memory(Address::Indirect(1)),
            length,
            place: 3,
        });
        Action::Strings(StringOperation::Movc, Size::Byte, first, second)
    }

    #[test]
    fn a_move_is_made_as_it_is_given(rt: HostRuntime) -> Result<(), Fail> {
        let action = mov(Size::Word, Operand::Immediate(5), Operand::Register(1));
        let made = Instruction::new(action, 3)?;
        assert_eq!(rt; made.action(), action);
        assert_eq!(rt; made.length(), 3);
        Ok(())
    }

    #[test]
    fn a_register_above_31_comes_first(rt: HostRuntime) {
        let high = mov(Size::Word, Operand::Register(32), Operand::Immediate(5));
        let index = Operand::Indexed(Address::Displaced(Base::Register(31), 4), 32);
        let indexed = mov(Size::Word, index, Operand::Register(0));
        let string = movc(Length::Literal(3), Length::Register(32));
        for (action, length) in [(high, 3), (indexed, 0), (string, 6)] {
            assert_eq!(rt; attempt(action, length), NO_REGISTER);
        }
    }

    #[test]
    fn an_immediate_that_is_written_comes_second(rt: HostRuntime) {
        let one = Operand::Immediate(1);
        let five = Operand::Immediate(5);
        let word = mov(Size::Word, Operand::Register(1), five);
        let double = mov(Size::Doubleword, one, five);
        let inc = Action::One(OneOperation::Inc, Size::Byte, one);
        for (action, length) in [(word, 3), (double, 30), (inc, 2)] {
            assert_eq!(rt; attempt(action, length), FORBIDDEN);
        }
    }

    #[test]
    fn doublewords_have_no_immediate_and_no_r31(rt: HostRuntime) {
        for (first, answer) in [
            (Operand::Immediate(5), RESERVED),
            (Operand::Register(31), RESERVED),
            (Operand::Register(30), Ok(())),
        ] {
            let action = mov(Size::Doubleword, first, Operand::Register(2));
            assert_eq!(rt; attempt(action, 3), answer);
        }
    }

    #[test]
    fn lengths_are_1_to_22(rt: HostRuntime) {
        for (length, answer) in [(0, RESERVED), (1, Ok(())), (22, Ok(())), (23, RESERVED)] {
            assert_eq!(rt; attempt(Action::Nop, length), answer);
        }
    }

    #[test]
    fn what_no_encoding_gives_is_not_made(rt: HostRuntime) {
        let movea = Action::Two(
            TwoOperation::Movea,
            Size::Word,
            Size::Word,
            Operand::Register(1),
            Operand::Register(2),
        );
        let jump = Action::One(OneOperation::Jmp, Size::Byte, Operand::Immediate(1));
        let wide = mov(Size::Byte, Operand::Immediate(0x100), Operand::Register(1));
        let long = Length::Literal(128);
        for (action, length, answer) in [
            (movea, 3, RESERVED),
            (jump, 2, RESERVED),
            (wide, 4, RESERVED),
            (Action::Branch(11, 0), 2, RESERVED),
            (Action::Branch(10, 0x8000), 3, RESERVED),
            (Action::Branch(10, -0x8000), 3, Ok(())),
            (movc(long, long), 6, RESERVED),
        ] {
            assert_eq!(rt; attempt(action, length), answer);
        }
    }
}
