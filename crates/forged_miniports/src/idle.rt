//! The source of kind `idle`: examples/idle.asm.

/// The text.
pub const IDLE: &[u8] = b"\
# Kind idle: a miniport of NDIS 5.0 that registers, gives its attributes, answers requests and halts;
# what is sent is taken and goes nowhere.
#
# Handlers and functions are called as stdcall: their words stand on the stack behind the return
# address, the first at the lowest address, and they take them off. EAX has what they answer.
# An adapter's context is the adapter's handle.

# What NdisMRegisterMiniport is told: NDIS50_MINIPORT_CHARACTERISTICS of the DDK's ndis.h, 96 bytes.
# Each word is a handler's address; 0 is none.
characteristics:
# the version: major 5 and minor 0
dd 5
# reserved
dd 0
# CheckForHang, DisableInterrupt, EnableInterrupt
dd 0
dd 0
dd 0
# Halt
dd halt
# HandleInterrupt
dd 0
# Initialize
dd initialize
# Isr
dd 0
# QueryInformation
dd query_information
# Reconfigure
dd 0
# Reset
dd reset
# Send
dd send
# SetInformation
dd set_information
# TransferData, ReturnPacket
dd 0
dd 0
# SendPackets
dd 0
# AllocateComplete, and six handlers that connection-oriented miniports have
dd 0
dd 0
dd 0
dd 0
dd 0
dd 0
dd 0

# The handle of the wrapper.
wrapper:
dd 0

# DriverEntry(driver object, registry path)
start:
# NdisInitializeWrapper(&wrapper, driver object, registry path, 0)
    mov eax, dword [esp+4]
    mov ecx, dword [esp+8]
    push 0
    push ecx
    push eax
    push wrapper
    call @NdisInitializeWrapper
# NdisMRegisterMiniport(wrapper, &characteristics, 96), whose status is DriverEntry's
    push 96
    push characteristics
    push dword [wrapper]
    call @NdisMRegisterMiniport
    ret 8

# MiniportInitialize(open error, medium index, medium array, count, adapter handle, configuration)
initialize:
# the medium is the first of the array, which has 802.3 alone
    mov eax, dword [esp+8]
    mov dword [eax], 0
# NdisMSetAttributesEx(adapter handle, context, 0 seconds, 0, NdisInterfaceIsa)
    mov eax, dword [esp+20]
    push 1
    push 0
    push 0
    push eax
    push eax
    call @NdisMSetAttributesEx
# NDIS_STATUS_SUCCESS
    xor eax, eax
    ret 24

# MiniportSend(context, packet, flags): the packet is sent at once
send:
# NDIS_STATUS_SUCCESS
    xor eax, eax
    ret 12

# MiniportQueryInformation(context, OID, buffer, length, &written, &needed)
query_information:
# NDIS_STATUS_INVALID_OID, but for OID_GEN_MAXIMUM_FRAME_SIZE
    mov eax, 0xC0010017
    cmp dword [esp+8], 0x00010106
    jne query_is_answered
# NDIS_STATUS_INVALID_LENGTH where there is no room for its 4 bytes
    mov eax, 0xC0010014
    mov ecx, dword [esp+24]
    mov dword [ecx], 4
    cmp dword [esp+16], 4
    jb query_is_answered
# 1,500, of 4 bytes
    mov ecx, dword [esp+12]
    mov dword [ecx], 1500
    mov ecx, dword [esp+20]
    mov dword [ecx], 4
    xor eax, eax
query_is_answered:
    ret 24

# MiniportSetInformation(context, OID, buffer, length, &read, &needed): all was read
set_information:
    mov eax, dword [esp+16]
    mov ecx, dword [esp+20]
    mov dword [ecx], eax
# NDIS_STATUS_SUCCESS
    xor eax, eax
    ret 24

# MiniportReset(&addressing reset, context): there is nothing to reset
reset:
    mov eax, dword [esp+4]
    mov byte [eax], 0
# NDIS_STATUS_SUCCESS
    xor eax, eax
    ret 8

# MiniportHalt(context): there is nothing to give back
halt:
    ret 4
";
