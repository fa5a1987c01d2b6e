// Texts and outputs that several rows use.

use group_spec::{CarOutputs, Motor};

/// Two cars with one empty program, and one call slot.
pub const TWO_IDLE: &[u8] = b"PROGRAM C
END_PROGRAM
CONFIGURATION K
VAR_GLOBAL CONSTANT CARS : INT := 2; FLOORS : INT := 2; SLOTS : INT := 1; END_VAR
RESOURCE M ON PLC
TASK CAR1 (INTERVAL := T#100ms, PRIORITY := 1);
TASK CAR2 (INTERVAL := T#100ms, PRIORITY := 1);
PROGRAM P1 WITH CAR1 : C;
PROGRAM P2 WITH CAR2 : C;
END_RESOURCE
END_CONFIGURATION
";

/// Two cars with one empty program, and two call slots.
pub const TWO_SLOTS: &[u8] = b"PROGRAM C
END_PROGRAM
CONFIGURATION K
VAR_GLOBAL CONSTANT CARS : INT := 2; FLOORS : INT := 2; SLOTS : INT := 2; END_VAR
RESOURCE M ON PLC
TASK CAR1 (INTERVAL := T#100ms, PRIORITY := 1);
TASK CAR2 (INTERVAL := T#100ms, PRIORITY := 1);
PROGRAM P1 WITH CAR1 : C;
PROGRAM P2 WITH CAR2 : C;
END_RESOURCE
END_CONFIGURATION
";

/// Two cars whose motors are asked to go up; a scan has three steps.
pub const TWO_RISING: &[u8] = b"PROGRAM C
LD 1
ST MOTOR
END_PROGRAM
CONFIGURATION K
VAR_GLOBAL CONSTANT CARS : INT := 2; FLOORS : INT := 2; SLOTS : INT := 1; END_VAR
RESOURCE M ON PLC
TASK CAR1 (INTERVAL := T#100ms, PRIORITY := 1);
TASK CAR2 (INTERVAL := T#100ms, PRIORITY := 1);
PROGRAM P1 WITH CAR1 : C;
PROGRAM P2 WITH CAR2 : C;
END_RESOURCE
END_CONFIGURATION
";

/// One car that serves slot 1 in each scan, and a group that tells it slot 1; a scan has three steps.
pub const TELLING: &[u8] = b"PROGRAM C
LD 1
ST SERVE
END_PROGRAM
PROGRAM D
LD 1
ST ASSIGN[1]
END_PROGRAM
CONFIGURATION K
VAR_GLOBAL CONSTANT CARS : INT := 1; FLOORS : INT := 8; SLOTS : INT := 1; END_VAR
RESOURCE M ON PLC
TASK CAR1 (INTERVAL := T#100ms, PRIORITY := 1);
TASK GROUP (INTERVAL := T#100ms, PRIORITY := 1);
PROGRAM P1 WITH CAR1 : C;
PROGRAM P2 WITH GROUP : D;
END_RESOURCE
END_CONFIGURATION
";

/// A car that goes up.
pub const UP: CarOutputs = CarOutputs {
    motor: Motor::Up,
    opens: false,
};

/// A car that stands.
pub const STILL: CarOutputs = CarOutputs {
    motor: Motor::Still,
    opens: false,
};
