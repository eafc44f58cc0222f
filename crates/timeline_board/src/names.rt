ghost use Rattle.std.specs.Prelude.{◌≡◌, map, option_map};
ghost use Rattle.timeline_board.specs.Refused.{name_in, name_of};

/// The names of the codes that a line may have.
const NAMES: [(u16, &str); 94] = [
    (10, "FileTooLong"),
    (11, "MachineNotJson"),
    (12, "FieldMissing"),
    (13, "FieldWrong"),
    (14, "NameDoubled"),
    (15, "ControllerUnknown"),
    (16, "QubitUnknown"),
    (17, "FrameWrong"),
    (18, "FamilyWrong"),
    (19, "CalText"),
    (21, "TapeNotJson"),
    (22, "TapeFieldWrong"),
    (23, "TapeQubit"),
    (24, "InputWrong"),
    (25, "OrderUnknown"),
    (26, "ShotsWrong"),
    (27, "ShotWrong"),
    (28, "LogWrong"),
    (101, "NotUtf8"),
    (102, "BadChar"),
    (103, "OpenComment"),
    (104, "OpenText"),
    (105, "NumberTooWide"),
    (106, "TooManyTokens"),
    (111, "NoStatement"),
    (112, "TooDeep"),
    (113, "Unsupported"),
    (114, "VersionUnknown"),
    (121, "TooWide"),
    (122, "PiTimesPi"),
    (123, "ByZero"),
    (124, "ByPi"),
    (125, "BadPower"),
    (131, "UnknownName"),
    (132, "Doubled"),
    (133, "WrongType"),
    (134, "NotConst"),
    (135, "IndexOut"),
    (136, "WidthOut"),
    (137, "MixedQubits"),
    (138, "QubitMissing"),
    (139, "TooManyVars"),
    (140, "DivisorNotConst"),
    (141, "LoopWordOutside"),
    (142, "IncludeUnknown"),
    (143, "TooManyTurns"),
    (144, "StepZero"),
    (145, "LabelDoubled"),
    (146, "TooManyCases"),
    (151, "WrongArity"),
    (152, "RepeatedQubit"),
    (153, "PowNotWhole"),
    (154, "Recursive"),
    (155, "NoControlledForm"),
    (156, "TooManyOps"),
    (157, "RegisterSizes"),
    (158, "NoInverse"),
    (159, "AngleTooWide"),
    (160, "CalDoubled"),
    (161, "UnknownPort"),
    (162, "UnknownFrame"),
    (163, "UnknownWave"),
    (164, "ForeignFrame"),
    (165, "PortOverlap"),
    (166, "FrequencyOut"),
    (167, "NoBit"),
    (168, "CalControl"),
    (169, "CaptureForm"),
    (170, "CalTooLong"),
    (171, "NoCalibration"),
    (181, "NotDuration"),
    (182, "CoefficientOut"),
    (183, "Negative"),
    (184, "TooLong"),
    (185, "DurationUnknown"),
    (191, "StretchNone"),
    (192, "StretchMany"),
    (193, "StretchNegative"),
    (194, "GroupTooLarge"),
    (195, "StretchAcross"),
    (196, "LineOut"),
    (199, "NotBuilt"),
    (201, "BoxTooLong"),
    (202, "ControlInBox"),
    (203, "TickOut"),
    (204, "DelayNegative"),
    (211, "RunTooLarge"),
    (221, "DefDoubled"),
    (222, "DefRecursive"),
    (223, "DefArguments"),
    (224, "DefReturn"),
    (225, "DefPlace"),
    (226, "DefTooLarge"),
    (227, "DefForeign"),
];

/// The name of a code, where it has one.
pub fn name_of_code(code: u16) -> Option<&'static str>
    ensures { option_map (λ name. name.now) result ≡ name_of code }
{
    find_name(&NAMES, code)
}

/// The name of a code in a table.
fn find_name(names: &'static [(u16, &'static str)], code: u16) -> Option<&'static str>
    ensures { option_map (λ name. name.now) result
        ≡ name_in (map (λ n. (n.0, n.1.now)) names.now) code }
{
    for (number, name) in names {
        if *number == code {
            return Some(*name);
        }
    }
    None
}
